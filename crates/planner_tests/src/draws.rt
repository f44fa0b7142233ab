// Calls drawn at random, granted and refused ones.
use super::buffers::Buffer;
use super::models::{Lengths, cells, ideals};
use super::nets::{Net, Row};
use super::randoms::Random;
use planner::Call;

// How many operators a sheet has on which plans are compared.
pub(crate) const SMALL: usize = 5;

// How many cells the tables have that are lent: enough for 32 ideals on 8 devices of each kind.
pub(crate) const CELLS: usize = 2592;

pub(crate) const IDEALS: usize = 40;

// A call with what it is handed; of a file its number among those that are there.
#[derive(Clone, Copy)]
pub(crate) enum Draw {
    Add(Row),
    Join(usize, usize),
    Retime(usize, Row),
    Count(u8, u8),
    Load(usize),
    Clear,
    Plan(Lengths),
}

// A file that is drawn, or none.
pub(crate) fn file_at(files: &[Buffer; 8], number: usize) -> &[u8] {
    files[number % 8].as_slice()
}

impl Draw {
    pub(crate) fn call<'a>(&self, files: &'a [Buffer; 8]) -> Call<'a> {
        match self {
            Draw::Add(row) => Call::Add(row.operator()),
            Draw::Join(from, to) => Call::Join {
                from: *from,
                to: *to,
            },
            Draw::Retime(v, row) => Call::Retime {
                operator: *v,
                figures: row.operator(),
            },
            Draw::Count(k, l) => Call::Count { k: *k, l: *l },
            Draw::Load(number) => Call::Load(file_at(files, *number)),
            Draw::Clear => Call::Clear,
            Draw::Plan(lent) => Call::Plan {
                ideals: lent.ideals,
                ratings: lent.ratings,
                choices: lent.choices,
            },
        }
    }
}

// A figure below the bound; now and then the largest, and one above it.
fn draw_figure(random: &mut Random, bound: u8) -> u32 {
    let figure = u32::from(random.below(bound.max(1)));
    match random.below(64) {
        0 => 1_000_000,
        1 => 1_000_001,
        _ => figure,
    }
}

// Small figures, so that many splits rate alike.
fn draw_row(random: &mut Random) -> Row {
    Row {
        acc: draw_figure(random, 7),
        cpu: draw_figure(random, 10),
        size: draw_figure(random, 4),
        link: draw_figure(random, 3),
    }
}

// The number of an operator; now and then one that is too high.
fn draw_operator(random: &mut Random, net: &Net) -> usize {
    let operators = net.rows().len();
    let bound = u8::try_from(operators).unwrap_or(1);
    match random.below(32) {
        0 => operators,
        1 => usize::MAX,
        _ => usize::from(random.below(bound.max(1))),
    }
}

// Most lead upward.
fn draw_join(random: &mut Random, net: &Net) -> Draw {
    let from = draw_operator(random, net);
    let to = draw_operator(random, net);
    match random.below(6) {
        0 => Draw::Join(from, to),
        _ => Draw::Join(from.min(to), from.max(to)),
    }
}

fn draw_count(random: &mut Random) -> u8 {
    match random.below(8) {
        0 => random.below(12),
        _ => random.below(4),
    }
}

// So many, or one less, or none, or all that there is, also by a number that is too high.
fn draw_length(random: &mut Random, needed: usize, all: usize) -> usize {
    match random.below(12) {
        0 => needed.saturating_sub(1),
        1 | 2 => needed,
        3 => 0,
        4 => usize::MAX,
        _ => all,
    }
}

// Of a sheet that is not small, a table that has no room for its ideals.
fn draw_lengths(random: &mut Random, net: &Net) -> Lengths {
    let operators = net.rows().len();
    if operators > SMALL {
        return Lengths {
            ideals: usize::from(random.below(6)),
            ratings: CELLS,
            choices: CELLS,
        };
    }
    let ideals = ideals(net);
    let cells = cells(net, ideals);
    Lengths {
        ideals: draw_length(random, ideals, IDEALS),
        ratings: draw_length(random, cells, CELLS),
        choices: draw_length(random, cells, CELLS),
    }
}

// An operator more; at the most that there are to be, a file, or nothing at all, or a bad one.
fn draw_add(random: &mut Random, net: &Net, widest: usize) -> Draw {
    let mut row = draw_row(random);
    if net.rows().len() < widest {
        return Draw::Add(row);
    }
    row.size = 1_000_001;
    match random.below(8) {
        0 => Draw::Clear,
        1 => draw_load(random),
        _ => Draw::Add(row),
    }
}

fn draw_load(random: &mut Random) -> Draw {
    Draw::Load(usize::from(random.below(8)))
}

// A call on a sheet that is to have at most so many operators, or a few more. A large sheet is seldom replaced.
pub(crate) fn draw_call(random: &mut Random, net: &Net, widest: usize) -> Draw {
    let is_large = net.rows().len() > SMALL && random.below(16) != 0;
    match random.below(24) {
        0..=4 => draw_add(random, net, widest),
        5..=10 => draw_join(random, net),
        11 | 12 => {
            let v = draw_operator(random, net);
            Draw::Retime(v, draw_row(random))
        }
        13 | 14 => {
            let k = draw_count(random);
            Draw::Count(k, draw_count(random))
        }
        15..=18 if is_large => draw_add(random, net, widest),
        15 => draw_load(random),
        16 if random.below(4) == 0 => Draw::Clear,
        _ => Draw::Plan(draw_lengths(random, net)),
    }
}

// A small sheet.
fn draw_net(random: &mut Random) -> Net {
    let mut net = Net::new();
    for _ in 0..random.below(6) {
        let _ = net.add(&draw_row(random));
    }
    for _ in 0..random.below(12) {
        let from = draw_operator(random, &net);
        let to = draw_operator(random, &net);
        let _ = net.join(from.min(to), from.max(to));
    }
    let k = draw_count(random);
    let _ = net.count(k, draw_count(random));
    net
}

// The file of a small sheet; every second has a byte changed, or one less or more.
pub(crate) fn draw_file(random: &mut Random) -> Buffer {
    let mut file = draw_net(random).file();
    let end = file.as_slice().len();
    let back = usize::from(random.below(100));
    match random.below(12) {
        0..=3 => file.set(end.saturating_sub(back), random.below(12)),
        4 => file.pop(),
        5 => file.push(0),
        6 => file.set(usize::from(random.below(20)), random.below(32)),
        _ => {}
    }
    file
}

// The networks of the examples, and the calls that bring one into a planner or a sheet.
use device::Kind;
use planner::Planner;
use refusals::Refusal;
use scale::Scale;
use sheet::{Operator, Sheet};

// What an operator has: acc, cpu, size and link.
pub(crate) type Figures = (u32, u32, u32, u32);

// A network: its operators, and its edges from one to another.
#[derive(Clone, Copy)]
pub(crate) struct Drawing<'a> {
    pub(crate) operators: &'a [Figures],
    pub(crate) edges: &'a [(usize, usize)],
}

pub(crate) const DIAMOND: Drawing<'static> = Drawing {
    operators: &[(2, 6, 1, 1), (4, 8, 2, 1), (3, 9, 2, 1), (2, 5, 1, 1)],
    edges: &[(0, 1), (0, 2), (1, 3), (2, 3)],
};

fn operator((acc, cpu, size, link): Figures) -> Operator {
    Operator {
        acc,
        cpu,
        size,
        link,
    }
}

impl Drawing<'_> {
    // Brings the network, and k and l devices, into a planner that is new.
    pub(crate) fn plan_on<K: Kind, L: Kind, S: Scale>(
        &self,
        planner: &mut Planner<K, L, S>,
        k: u8,
        l: u8,
    ) -> Result<(), Refusal> {
        for figures in self.operators.iter().copied() {
            planner.add(operator(figures))?;
        }
        for (from, to) in self.edges.iter().copied() {
            planner.join(from, to)?;
        }
        planner.count(k, l)
    }

    // The sheet of the network with k and l devices.
    pub(crate) fn sheet(&self, k: u8, l: u8) -> Result<Sheet, Refusal> {
        let mut sheet = Sheet::new();
        for figures in self.operators.iter().copied() {
            sheet.add(operator(figures))?;
        }
        for (from, to) in self.edges.iter().copied() {
            sheet.join(from, to)?;
        }
        sheet.count(k, l)?;
        Ok(sheet)
    }
}

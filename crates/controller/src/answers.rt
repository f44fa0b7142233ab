// What a call answers, as a caller in C reads it. Where it is refused, everything but the refusal is 0.
ghost use Rattle.std.specs.Prelude.{◌≡◌};
ghost use Rattle.controller.specs.Told.{number_of, stage_of, margin_of};

use super::RefusalRecord;
use refusals::Refusal;

#[repr(C)]
#[derive(Clone, Copy)]
pub struct NumberRecord {
    pub refusal: RefusalRecord,
    pub value: usize,
}

#[repr(C)]
#[derive(Clone, Copy)]
pub struct StageRecord {
    pub refusal: RefusalRecord,
    pub mask: u64,
    pub operators: u32,
    pub kind: u8,
}

#[repr(C)]
#[derive(Clone, Copy)]
pub struct MarginRecord {
    pub refusal: RefusalRecord,
    pub ticks: i64,
}

impl NumberRecord {
    pub(crate) fn of(answer: Result<usize, Refusal>) -> NumberRecord
        ensures { result ≡ number_of answer }
    {
        match answer {
            Ok(value) => NumberRecord {
                refusal: RefusalRecord::GRANTED,
                value,
            },
            Err(refusal) => NumberRecord {
                refusal: RefusalRecord::of(refusal),
                value: 0,
            },
        }
    }
}

impl StageRecord {
    pub(crate) fn of(answer: Result<(u8, u64, u32), Refusal>) -> StageRecord
        ensures { result ≡ stage_of answer }
    {
        match answer {
            Ok((kind, mask, operators)) => StageRecord {
                refusal: RefusalRecord::GRANTED,
                mask,
                operators,
                kind,
            },
            Err(refusal) => StageRecord {
                refusal: RefusalRecord::of(refusal),
                mask: 0,
                operators: 0,
                kind: 0,
            },
        }
    }
}

impl MarginRecord {
    pub(crate) fn of(answer: Result<i64, Refusal>) -> MarginRecord
        ensures { result ≡ margin_of answer }
    {
        match answer {
            Ok(ticks) => MarginRecord {
                refusal: RefusalRecord::GRANTED,
                ticks,
            },
            Err(refusal) => MarginRecord {
                refusal: RefusalRecord::of(refusal),
                ticks: 0,
            },
        }
    }
}

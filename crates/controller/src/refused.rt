ghost use Rattle.std.specs.Prelude.{◌≡◌};
ghost use Rattle.refusals.specs.Told.{told, outcome};
ghost use Rattle.controller.specs.Told.{granted, refusal_told};

use refusals::Refusal;

// Why a call is refused: a number and its values, or zeros.
#[repr(C)]
#[derive(Clone, Copy)]
pub struct RefusalRecord {
    pub entry: usize,
    pub number: u8,
    pub section: u8,
    pub reason: u8,
}

impl RefusalRecord {
    // Of a call that is granted.
    pub const GRANTED: RefusalRecord = RefusalRecord {
        entry: 0,
        number: 0,
        section: 0,
        reason: 0,
    };

    pub(crate) fn of(refusal: Refusal) -> RefusalRecord
        ensures { result ≡ refusal_told (told refusal) }
    {
        let number = refusal.number();
        match refusal {
            Refusal::ContentsEntry(index) => RefusalRecord {
                entry: usize::from(index),
                number,
                section: 0,
                reason: 0,
            },
            Refusal::BodyEntry {
                section,
                entry,
                reason,
            } => RefusalRecord {
                entry,
                number,
                section,
                reason: reason.number(),
            },
            _ => RefusalRecord {
                entry: 0,
                number,
                section: 0,
                reason: 0,
            },
        }
    }

    // Of a call that answers only that it is granted.
    pub(crate) fn of_change(answer: Result<(), Refusal>) -> RefusalRecord
        ensures { result ≡ refusal_told (outcome answer) }
    {
        match answer {
            Ok(()) => RefusalRecord::GRANTED,
            Err(refusal) => RefusalRecord::of(refusal),
        }
    }
}

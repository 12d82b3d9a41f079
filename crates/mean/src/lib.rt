// The mean of the marked legs: each slot of a table is one leg, which has a mark or is not set. The definitions are in
// specs/Mean.antt.
#![tactic(auto)]

ghost use Rattle.std.specs.Prelude.{◌≡◌};
ghost use Rattle.mean.specs.Mean.{leg_of, legs, mean};
ghost use Rattle.mean.specs.inside.Walk.{turn_of, outcome, none, mean_of_tally, Near};

use byte_runs::big_endian;
use layout::Refusal;
use marks::{Marks, Tally};
use record::Answer;
use record::slots::Slot;
use slot_table::sizes;

// What a call answers, and what its walk counts.
pub mod marks;

const MAX_MARK: u64 = 1000000;

impl Tally {
    // The tally with the leg in a slot, slot number `place`; or the refusal of that slot.
    #[tactic(auto, unfolding(crate::specs::Mean::leg_of))]
    fn with(self, slot: Slot, area: &[u8], place: u32) -> Result<Tally, Answer>
        requires { Near place self }
        ensures { result ≡ turn_of self (leg_of area.now place slot) }
    {
        if slot.kind == record::slots::UNSET {
            return Ok(Tally {
                unset: self.unset + 1,
                ..self
            });
        }
        if !slot_table::is_inside(slot, area.len()) {
            return Err(Answer::refused(Refusal::BadSlot, place));
        }
        if !slot_table::is_integers(slot.kind) {
            return Err(Answer::refused(Refusal::WrongKind, place));
        }
        if slot.len != 1 {
            return Err(Answer::refused(Refusal::BadList, place));
        }
        let mark = big_endian::number_at(area, slot.start as usize, record::INTEGER_SIZE);
        if MAX_MARK < mark {
            return Err(Answer::refused(Refusal::BadMark, place));
        }
        Ok(Tally {
            sum: self.sum + mark as u32,
            marked: self.marked + 1,
            ..self
        })
    }

    // The mean of the marks counted: the one division.
    #[tactic(auto, unfolding(crate::specs::Mean::quotient, crate::specs::Mean::double))]
    fn mean(self) -> Option<f64>
        ensures { result ≡ mean_of_tally self }
    {
        if self.marked == 0 {
            return None;
        }
        Some(self.sum as f64 / self.marked as f64)
    }
}

// The tally of a table, or the first refusal.
fn tally(slots: &[u32], area: &[u8]) -> Result<Tally, Answer>
    ensures { result ≡ outcome none (legs slots.now area.now) }
{
    if !sizes::table_fits(slots.len(), area.len()) {
        return Err(Answer::refused(Refusal::BadSize, 0));
    }
    let mut t = Tally {
        sum: 0,
        marked: 0,
        unset: 0,
    };
    // Slot by slot, by its number, as `slot_at` takes it.
    for k in 0..slots.len() / record::SLOT_WIDTH {
        t = t.with(slot_table::slot_at(slots, k), area, k as u32)?;
    }
    Ok(t)
}

// The mean of the marks in a table, and how many of its slots are not set. A refusal says that no leg is marked.
pub fn mean(slots: &[u32], area: &[u8]) -> Marks
    ensures { result ≡ mean slots.now area.now }
{
    match tally(slots, area) {
        Ok(t) => Marks {
            answer: Answer::accepted(t.unset, 0),
            mean: t.mean(),
        },
        Err(answer) => Marks { answer, mean: None },
    }
}

ghost use Rattle.std.specs.Prelude.{◌≡◌, ◌≤◌, ◌+◌, ◌/◌, ◌∷◌, ℕ, [], length, Some, IfOk, OnOk};
ghost use Rattle.std.specs.List.{All, flat_map};
ghost use Rattle.std.specs.List.Sorted.{IsPermutation};
ghost use Rattle.rtl_core.specs.ClockStep.{bit_of, widths};
ghost use Rattle.rtl_core.specs.Valid.{HasBits, IsBetween};
ghost use Rattle.rtl_logic.specs.Making.{circuit, IsSound, Makes};
ghost use Rattle.rtl_logic.specs.Choosing.{is_any, writes_in, choices_in, zero_for_none, IsSome, ChoiceFits, StandForBits, StandForChoices, Chooses, IsChoice, Takes};

use crate::fold::bit;
pub use crate::fold::constant;
use crate::key::{AtomKey, atom_key};
use crate::logic::Logic;
use rtl_core::design::Atom;
use std::alloc::{AllocError, Global};
use std::collections::BTreeMap;

/// A value, and the bit that says when it is wanted.
#[derive(Clone, Copy, PartialEq, Eq)]
pub struct Choice {
    pub when: Atom,
    pub value: Atom,
}

/// A value, and all bits that say when it is wanted.
#[derive(Drop)]
struct Wanted {
    when: Vec<Atom>,
    value: Atom,
}

/// Adds a choice to the group at a place, if this has its value, or else as a group of its own. Gives the place of its group.
fn add_choice(
    alloc: Global,
    groups: &mut Vec<Wanted>,
    place: usize,
    choice: Choice,
) -> Result<usize, AllocError>
    ensures same { OnOk result (IsPermutation (choice ∷ flat_map choices_in groups.old.items) (flat_map choices_in groups.new.items)) }
    ensures most { OnOk result (length groups.new.items ≤ length groups.old.items + 1) }
    ensures some { OnOk result (All IsSome groups.old.items → All IsSome groups.new.items) }
{
    if place < groups.len() && groups[place].value == choice.value {
        groups[place].when.push(choice.when)?;
        return Ok(place);
    }
    let when = vec![in alloc; choice.when]?;
    let value = choice.value;
    groups.push(Wanted { when, value })?;
    Ok(groups.len() - 1)
}

/// The choices by their values, in the order of the first ones.
fn by_value(alloc: Global, choices: &[Choice]) -> Result<Vec<Wanted>, AllocError>
    ensures same { IfOk result (λ groups. IsPermutation choices.now (flat_map choices_in groups.items)) }
    ensures most { IfOk result (λ groups. length groups.items ≤ length choices.now) }
    ensures some { IfOk result (λ groups. All IsSome groups.items) }
{
    let mut places: BTreeMap<AtomKey, usize> = BTreeMap::new(alloc);
    let mut groups: Vec<Wanted> = Vec::new(alloc);
    for choice in choices {
        let key = atom_key(choice.value);
        let known = places.get(&key).copied().unwrap_or(groups.len());
        let place = add_choice(alloc, &mut groups, known, *choice)?;
        places.insert(key, place)?;
    }
    Ok(groups)
}

impl Logic {
    /// Whether one of the bits is 1, as a balanced tree.
    pub fn any(&mut self, alloc: Global, bits: &[Atom]) -> Result<Atom, AllocError>
        ensures { IsSound (circuit self.old) → All (HasBits (widths (circuit self.old)) 1) bits.now
            → IfOk result (λ a. Makes (circuit self.old) (circuit self.new) 1 a (λ v x. x ≡ bit_of (is_any v bits.now))) }
    {
        let mut level = Vec::from_slice(alloc, bits)?;
        for _round in 0..64u32 {
            if level.len() > 1 {
                level = self.pairs_or(alloc, &level)?;
            }
        }
        Ok(level.first().copied().unwrap_or(bit(false)))
    }

    fn pairs_or(&mut self, alloc: Global, level: &[Atom]) -> Result<Vec<Atom>, AllocError>
        ensures same { IsSound (circuit self.old) → All (HasBits (widths (circuit self.old)) 1) level.now
            → IfOk result (λ above. StandForBits (circuit self.old) (circuit self.new) level.now above.items) }
        ensures half { IfOk result (λ above. length above.items ≡ (length level.now + 1) / 2) }
    {
        let mut above = Vec::with_capacity(alloc, level.len() / 2 + 1)?;
        for k in 0..level.len() / 2 {
            above.push(self.or(level[2 * k], level[2 * k + 1])?)?;
        }
        if level.len() % 2 == 1 {
            above.push(level[level.len() - 1])?;
        }
        Ok(above)
    }

    /// When one of the values is wanted, and the value that is. No two different values are wanted in one cycle. Where none is, the value is any of them.
    pub fn select(
        &mut self,
        alloc: Global,
        choices: &[Choice],
    ) -> Result<Option<Choice>, AllocError>
        ensures { (n : ℕ) → IsSound (circuit self.old) → IsBetween 1 128 n → All (ChoiceFits (widths (circuit self.old)) n) choices.now
            → IfOk result (IsChoice (circuit self.old) (circuit self.new) n choices.now) }
    {
        let mut level = self.wanted(alloc, choices)?;
        for _round in 0..64u32 {
            if level.len() > 1 {
                level = self.pairs_picked(alloc, &level)?;
            }
        }
        Ok(level.first().copied())
    }

    /// A choice for each value.
    fn wanted(&mut self, alloc: Global, choices: &[Choice]) -> Result<Vec<Choice>, AllocError>
        ensures same { (n : ℕ) → IsSound (circuit self.old) → All (ChoiceFits (widths (circuit self.old)) n) choices.now
            → IfOk result (λ level. StandForChoices (circuit self.old) (circuit self.new) n choices.now level.items) }
        ensures most { IfOk result (λ level. length level.items ≤ length choices.now) }
        ensures some { IfOk result (λ level. length level.items ≡ 0 → length choices.now ≡ 0) }
    {
        let mut level = Vec::new(alloc);
        let groups = by_value(alloc, choices)?;
        for group in &groups {
            let when = self.any(alloc, &group.when)?;
            let value = group.value;
            level.push(Choice { when, value })?;
        }
        Ok(level)
    }

    fn pairs_picked(&mut self, alloc: Global, level: &[Choice]) -> Result<Vec<Choice>, AllocError>
        ensures same { (n : ℕ) → IsSound (circuit self.old) → IsBetween 1 128 n → All (ChoiceFits (widths (circuit self.old)) n) level.now
            → IfOk result (λ above. StandForChoices (circuit self.old) (circuit self.new) n level.now above.items) }
        ensures half { IfOk result (λ above. length above.items ≡ (length level.now + 1) / 2) }
    {
        let mut above = Vec::with_capacity(alloc, level.len() / 2 + 1)?;
        for k in 0..level.len() / 2 {
            above.push(self.picked(level[2 * k], level[2 * k + 1])?)?;
        }
        if level.len() % 2 == 1 {
            above.push(level[level.len() - 1])?;
        }
        Ok(above)
    }

    fn picked(&mut self, one: Choice, other: Choice) -> Result<Choice, AllocError>
        ensures { (n : ℕ) → IsSound (circuit self.old) → IsBetween 1 128 n → All (ChoiceFits (widths (circuit self.old)) n) (one ∷ other ∷ [])
            → IfOk result (Chooses (circuit self.old) (circuit self.new) n (one ∷ other ∷ [])) }
    {
        let when = self.or(one.when, other.when)?;
        let value = self.pick(one.when, one.value, other.value)?;
        Ok(Choice { when, value })
    }

    /// The value that is wanted, or any where none is; 0 where there is none at all.
    pub fn selected(
        &mut self,
        alloc: Global,
        bits: u8,
        choices: &[Choice],
    ) -> Result<Atom, AllocError>
        ensures { IsSound (circuit self.old) → IsBetween 1 128 bits → All (ChoiceFits (widths (circuit self.old)) bits) choices.now
            → IfOk result (λ a. Makes (circuit self.old) (circuit self.new) bits a (λ v x. Takes (writes_in v choices.now) (zero_for_none choices.now) x)) }
    {
        let choice = self.select(alloc, choices)?;
        Ok(choice.map(|c| c.value).unwrap_or(constant(bits, 0)))
    }

    /// The value that is wanted, else the other one.
    pub fn selected_or(
        &mut self,
        alloc: Global,
        choices: &[Choice],
        other: Atom,
    ) -> Result<Atom, AllocError>
        ensures { (n : ℕ) → IsSound (circuit self.old) → IsBetween 1 128 n → All (ChoiceFits (widths (circuit self.old)) n) choices.now → HasBits (widths (circuit self.old)) n other
            → IfOk result (λ a. Makes (circuit self.old) (circuit self.new) n a (λ v x. Takes (writes_in v choices.now) (Some (v other)) x)) }
    {
        match self.select(alloc, choices)? {
            Some(choice) => self.pick(choice.when, choice.value, other),
            None => Ok(other),
        }
    }
}

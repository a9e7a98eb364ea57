//! The log of what is wanted, and the same by target.
ghost use Rattle.std.specs.Prelude.{◌≡◌, ◌++◌, ◌∷◌, ◌<◌, [], length, IfOk, OnOk, if◌then◌else◌};
ghost use Rattle.std.specs.List.{position_or_len};
ghost use Rattle.circuit_context.specs.declared.wanted.role.Target.{Target};
ghost use Rattle.circuit_context.specs.Wanted.Roles.{given, choices_of, same_target, ArePaired};
ghost use Rattle.circuit_context.specs.declared.wanted.log.Push.{Push};

use crate::wanted::role::Target;
use indexmap::IndexSet;
use rtl_core::design::Atom;
use rtl_logic::select::Choice;
use std::alloc::{AllocError, Global};

/// A value for a target, and when it is wanted.
#[derive(Clone, Copy)]
pub struct Push {
    pub target: Target,
    pub choice: Choice,
}

/// All that is wanted, in order.
#[derive(Drop)]
pub struct Log {
    pub pushes: Vec<Push>,
}

/// What is wanted of each target, in order.
#[derive(Drop)]
pub struct Groups {
    targets: IndexSet<Target>,
    choices: Vec<Vec<Choice>>,
}

impl Log {
    pub fn new(alloc: Global) -> Log
        ensures { result.pushes.items ≡ [] }
    {
        Log {
            pushes: Vec::new(alloc),
        }
    }

    /// Notes that the target is to take the value in the cycles in which the bit is 1.
    pub fn push(&mut self, target: Target, when: Atom, value: Atom) -> Result<(), AllocError>
        ensures { OnOk result (self.new.pushes.items ≡ self.old.pushes.items ++ record { target = target; choice = record { when = when; value = value } } ∷ []) }
    {
        let choice = Choice { when, value };
        self.pushes.push(Push { target, choice })?;
        Ok(())
    }

    /// The log by target.
    pub fn groups(&self, alloc: Global) -> Result<Groups, AllocError>
        ensures { IfOk result (λ g. (t : Target) → given g t ≡ choices_of t self.now.pushes.items) }
    {
        let mut groups = Groups {
            targets: IndexSet::new(alloc),
            choices: Vec::new(alloc),
        };
        for push in &self.pushes {
            groups.add(alloc, *push)?;
        }
        Ok(groups)
    }
}

impl Groups {
    /// The place of a target, which comes last with no choices where it was not there.
    fn place(&mut self, alloc: Global, target: Target) -> Result<usize, AllocError>
        requires { ArePaired self.old }
        ensures paired { OnOk result (ArePaired self.new) }
        ensures given { OnOk result ((t : Target) → given self.new t ≡ given self.old t) }
        ensures place { IfOk result (λ i. i ≡ position_or_len (same_target target) self.new.targets.keys) }
        ensures within { IfOk result (λ i. i < length self.new.targets.keys) }
    {
        let (index, is_new) = self.targets.insert_full(target)?;
        if !is_new {
            return Ok(index);
        }
        self.choices.push(Vec::new(alloc))?;
        Ok(index)
    }

    /// One push more.
    fn add(&mut self, alloc: Global, push: Push) -> Result<(), AllocError>
        requires { ArePaired self.old }
        ensures paired { OnOk result (ArePaired self.new) }
        ensures given { OnOk result ((t : Target) → given self.new t ≡ given self.old t ++ (if same_target t push.target then push.choice ∷ [] else [])) }
    {
        let index = self.place(alloc, push.target)?;
        self.choices[index].push(push.choice)?;
        Ok(())
    }

    /// What is wanted of a target.
    pub fn choices(&self, target: Target) -> &[Choice]
        ensures { result.now ≡ given self.now target }
    {
        let Some(index) = self.targets.get_index_of(&target) else {
            return &[];
        };
        if index < self.choices.len() {
            &self.choices[index]
        } else {
            &[]
        }
    }
}

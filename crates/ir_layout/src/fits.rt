//! Whether the blocks of a tree are left as what stands behind them asks.
ghost use Rattle.std.specs.Prelude.{◌≡◌, List, ℕ, [], map, drop, length, IsTrue, OnOk};
ghost use Rattle.std.specs.Option.{option_map};
ghost use Rattle.ir_core.specs.Trees.{sequence_of, part_of, shape_of, exit_of, part_row, side_of, arm_row};
ghost use Rattle.ir_layout.specs.WellFormed as fit;
ghost use Rattle.ir_layout.specs.Fitting.{numbered, inside_of, kind_view};

use hls_base::refusal::impossible;
use ir_core::tree::{Exit, LandId, Part, Sequence, Shape};
use std::alloc::{AllocError, Global};

/// What stands ahead of the end of a block: one place, a test, or a switch with so many cases.
#[derive(Clone, Copy)]
pub enum Kind {
    OneWay,
    Test,
    Switch(usize),
}

/// Which jumps out of a loop or switch, and to the next iteration, a block may have.
#[derive(Clone, Copy)]
pub struct Jumps {
    pub leave: bool,
    pub again: bool,
}

/// The places that stand further behind, the nearest last.
#[derive(Drop)]
pub struct Places {
    alloc: Global,
    lands: Vec<LandId>,
}

fn is_noted(lands: &[LandId], land: LandId) -> bool
    ensures { result ≡ fit.has_number (numbered lands.now) land.0 }
{
    let mut left = lands.len();
    while left > 0 {
        left -= 1;
        if land.0 == lands[left].0 {
            return true;
        }
    }
    false
}

fn exit_fits(lands: &[LandId], jumps: Jumps, ahead: Kind, exit: &Exit) -> bool
    ensures { IsTrue result → fit.ExitFits (inside_of jumps (numbered lands.now)) (kind_view ahead) (exit_of exit.now) }
{
    match (exit, ahead) {
        (Exit::Next, _) => true,
        (Exit::Branch(_), Kind::Test) => true,
        (Exit::Choose(tests), Kind::Switch(cases)) => tests.len() == cases,
        (Exit::Break, _) => jumps.leave,
        (Exit::Continue, _) => jumps.again,
        (Exit::Leave(land), _) => is_noted(lands, *land),
        _ => false,
    }
}

/// What a shape is to the block before it.
fn kind_of(shape: &Shape) -> Kind
    ensures { kind_view result ≡ fit.ahead_of (shape_of shape.now) }
{
    match shape {
        Shape::Fork { .. } => Kind::Test,
        Shape::Choose { targets, .. } => Kind::Switch(targets.len()),
        _ => Kind::OneWay,
    }
}

/// What stands ahead of a block before the parts from this one on.
fn kind_before(parts: &[Part], index: usize, ahead: Kind) -> Kind
    ensures { kind_view result ≡ fit.ahead_of_parts (part_row (map part_of (drop index parts.now))) (kind_view ahead) }
{
    if index < parts.len() {
        kind_of(&parts[index].shape)
    } else {
        ahead
    }
}

impl Places {
    ghost use Rattle.std.specs.Prelude.{◌≡◌, List, ℕ, [], map, OnOk};
    ghost use Rattle.ir_core.specs.Trees.{part_of, shape_of, exit_of, part_row};
    ghost use Rattle.ir_layout.specs.WellFormed as fit;
    ghost use Rattle.ir_layout.specs.Fitting.{numbered, inside_of, kind_view};

    pub fn new(alloc: Global) -> Places
        ensures { result.lands.items ≡ [] }
    {
        Places {
            alloc,
            lands: Vec::new(alloc),
        }
    }

    fn alloc(&self) -> Global {
        self.alloc
    }

    #[tactic(auto, using(crate::proofs::Fitting::numbered_more))]
    fn note(&mut self, shape: &Shape) -> Result<(), AllocError>
        ensures { OnOk result (numbered self.new.lands.items ≡ fit.with_land (shape_of shape.now) (numbered self.old.lands.items)) }
    {
        if let Shape::Land(land) = shape {
            self.lands.push(*land)?;
        }
        Ok(())
    }

    /// Notes the places in these parts.
    fn note_all(&mut self, parts: &[Part]) -> Result<(), AllocError>
        ensures { OnOk result (numbered self.new.lands.items ≡ fit.lands_in (part_row (map part_of parts.now)) (numbered self.old.lands.items)) }
    {
        let mut left = parts.len();
        while left > 0 {
            left -= 1;
            self.note(&parts[left].shape)?;
        }
        Ok(())
    }

    /// Control has come to a shape: if it is a place that was noted, it stands behind no more.
    fn come_to(&mut self, shape: &Shape)
        ensures { (lands : List ℕ) → numbered self.old.lands.items ≡ fit.with_land (shape_of shape.now) lands → numbered self.new.lands.items ≡ lands }
    {
        if let Shape::Land(_) = shape {
            let _passed = self.lands.pop();
        }
    }

    fn check_exit(&self, jumps: Jumps, ahead: Kind, exit: &Exit) -> Result<(), AllocError>
        ensures { OnOk result (fit.ExitFits (inside_of jumps (numbered self.now.lands.items)) (kind_view ahead) (exit_of exit.now)) }
    {
        if exit_fits(&self.lands, jumps, ahead, exit) {
            Ok(())
        } else {
            Err(impossible())
        }
    }
}

/// Succeeds only where each block is left so.
#[cycle(sequence)]
fn check_sequence(
    places: &mut Places,
    sequence: &Sequence,
    jumps: Jumps,
    ahead: Kind,
) -> Result<(), AllocError>
    ensures fits { OnOk result (fit.SequenceFits (inside_of jumps (numbered places.old.lands.items)) (kind_view ahead) (sequence_of sequence.now)) }
    ensures lands { OnOk result (numbered places.new.lands.items ≡ numbered places.old.lands.items) }
{
    places.note_all(&sequence.rest)?;
    places.check_exit(
        jumps,
        kind_before(&sequence.rest, 0, ahead),
        &sequence.first.exit,
    )?;
    check_parts(places, &sequence.rest, jumps, ahead)
}

/// The same of parts, whose places have been noted.
#[cycle(sequence)]
fn check_parts(
    places: &mut Places,
    parts: &[Part],
    jumps: Jumps,
    ahead: Kind,
) -> Result<(), AllocError>
    ensures fits { (lands : List ℕ) → numbered places.old.lands.items ≡ fit.lands_in (part_row (map part_of parts.now)) lands →
        OnOk result (fit.PartsFit (inside_of jumps lands) (kind_view ahead) (part_row (map part_of parts.now))) }
    ensures lands { (lands : List ℕ) → numbered places.old.lands.items ≡ fit.lands_in (part_row (map part_of parts.now)) lands →
        OnOk result (numbered places.new.lands.items ≡ lands) }
{
    for index in 0..parts.len() {
        let part = &parts[index];
        places.come_to(&part.shape);
        check_shape(places, &part.shape, jumps)?;
        let kind = kind_before(parts, index + 1, ahead);
        places.check_exit(jumps, kind, &part.after.exit)?;
    }
    Ok(())
}

#[cycle(sequence)]
fn check_shape(places: &mut Places, shape: &Shape, jumps: Jumps) -> Result<(), AllocError>
    ensures fits { OnOk result (fit.ShapeFits (inside_of jumps (numbered places.old.lands.items)) (shape_of shape.now)) }
    ensures lands { OnOk result (numbered places.new.lands.items ≡ numbered places.old.lands.items) }
{
    match shape {
        Shape::Fork { yes, no, .. } => {
            check_side(places, yes, jumps)?;
            check_side(places, no, jumps)
        }
        Shape::Loop {
            post,
            test,
            body,
            step,
            ..
        } => {
            check_test(places, test)?;
            let inner = Jumps {
                leave: true,
                again: true,
            };
            check_sequence(places, body, inner, Kind::OneWay)?;
            check_step(places, *post, step)
        }
        Shape::Choose { arms, .. } => {
            let inner = Jumps {
                leave: true,
                again: jumps.again,
            };
            check_arms(places, arms, inner)
        }
        Shape::Land(_) => Ok(()),
        Shape::Overlapped { .. } => Ok(()),
    }
}

/// Nothing jumps out of a test.
#[cycle(sequence)]
fn check_test(places: &Places, test: &Sequence) -> Result<(), AllocError>
    ensures { OnOk result (fit.SequenceFits fit.in_test fit.a_test (sequence_of test.now)) }
{
    let mut inner = Places::new(places.alloc());
    let none = Jumps {
        leave: false,
        again: false,
    };
    check_sequence(&mut inner, test, none, Kind::Test)
}

#[cycle(sequence)]
fn check_side(places: &mut Places, side: &Option<Sequence>, jumps: Jumps) -> Result<(), AllocError>
    ensures fits { OnOk result (fit.SideFits (inside_of jumps (numbered places.old.lands.items)) (side_of (option_map sequence_of side.now))) }
    ensures lands { OnOk result (numbered places.new.lands.items ≡ numbered places.old.lands.items) }
{
    match side {
        Some(sequence) => check_sequence(places, sequence, jumps, Kind::OneWay),
        None => Ok(()),
    }
}

/// A step does not go on with the next iteration, and there is none where the body comes first.
#[cycle(sequence)]
fn check_step(
    places: &mut Places,
    post: bool,
    step: &Option<Box<Sequence>>,
) -> Result<(), AllocError>
    ensures fits { (inside : fit.Inside) → inside.lands ≡ numbered places.old.lands.items →
        OnOk result (fit.SideFits (fit.in_step inside) (side_of (option_map (λ part. sequence_of part.value) step.now))) }
    ensures place { OnOk result (fit.StepFits post (side_of (option_map (λ part. sequence_of part.value) step.now))) }
    ensures lands { OnOk result (numbered places.new.lands.items ≡ numbered places.old.lands.items) }
{
    let jumps = Jumps {
        leave: true,
        again: false,
    };
    match step {
        Some(sequence) if !post => check_sequence(places, sequence, jumps, Kind::OneWay),
        Some(_) => Err(impossible()),
        None => Ok(()),
    }
}

#[cycle(sequence)]
fn check_arms(places: &mut Places, arms: &[Sequence], jumps: Jumps) -> Result<(), AllocError>
    ensures fits { OnOk result (fit.ArmsFit (inside_of jumps (numbered places.old.lands.items)) (arm_row (map sequence_of arms.now))) }
    ensures lands { OnOk result (numbered places.new.lands.items ≡ numbered places.old.lands.items) }
{
    for arm in arms {
        check_sequence(places, arm, jumps, Kind::OneWay)?;
    }
    Ok(())
}

/// Succeeds only for a well formed tree.
pub fn check_tree(alloc: Global, blocks: &Sequence) -> Result<(), AllocError>
    ensures { OnOk result (fit.IsWellFormed (sequence_of blocks.now)) }
{
    let mut places = Places::new(alloc);
    let none = Jumps {
        leave: false,
        again: false,
    };
    check_sequence(&mut places, blocks, none, Kind::OneWay)
}

//! The nodes so far, and how a block becomes one.
ghost use Rattle.std.specs.Prelude.{◌≡◌, map, IfOk};
ghost use Rattle.std.specs.Option.{option_map};
ghost use Rattle.std.specs.List.{zip};
ghost use Rattle.ir_layout.specs.Layout as spec;
ghost use Rattle.ir_layout.specs.Nodes.{end_of, jumps, chooses};
ghost use Rattle.ir_layout.specs.Views.{number, stacked};

use crate::counts::{end_at, shape_ends};
use crate::ways::{Around, Ways};
use hls_base::number::{NodeId, VarId};
use hls_base::point::Point;
use hls_base::refusal::impossible;
use ir_core::body::{Body, Operand, Out, Source};
use ir_core::cfg::{Block, End, Loop, Node};
use ir_core::stamp::Untimed;
use ir_core::tree::{BasicBlock, Exit, LandId, Part, Shape};
use std::alloc::{AllocError, Global};

/// The place behind pieces that are left from within.
#[derive(Clone, Copy)]
pub struct Landing {
    pub number: LandId,
    pub place: NodeId,
}

/// The nodes in order, and the places that stand further behind, the nearest last.
#[derive(Drop)]
pub struct Flat {
    alloc: Global,
    nodes: Vec<Node<Untimed>>,
    lands: Vec<Landing>,
}

/// What the variable holds where the block is left.
fn left_in(outs: &[Out], variable: VarId) -> Operand
    ensures { result ≡ spec.left_in outs.now variable }
{
    let mut left = Operand {
        value: Source::Variable(variable),
        distance: 0,
    };
    for out in outs {
        if out.variable.0 == variable.0 {
            left = out.value;
        }
    }
    left
}

fn jump(target: Option<NodeId>) -> End
    ensures { end_of result ≡ jumps (spec.place_or_first (option_map number target)) }
{
    match target {
        Some(node) => End::Jump(node),
        None => End::Jump(NodeId(0)),
    }
}

/// The nearest place with this number.
fn land_place(lands: &[Landing], land: LandId) -> Option<NodeId>
    ensures { option_map number result ≡ spec.land_place (stacked lands.now) land.0 }
{
    let mut left = lands.len();
    while left > 0 {
        left -= 1;
        let landing = lands[left];
        if land.0 == landing.number.0 {
            return Some(landing.place);
        }
    }
    None
}

fn return_value(outs: &[Out], returned: Option<VarId>) -> Option<Operand>
    ensures { result ≡ option_map (spec.left_in outs.now) returned }
{
    match returned {
        Some(variable) => Some(left_in(outs, variable)),
        None => None,
    }
}

fn choose(
    alloc: Global,
    tests: &[Operand],
    cases: &[NodeId],
    other: NodeId,
) -> Result<End, AllocError>
    ensures { IfOk result (λ end. end_of end ≡ chooses (zip tests.now (map number cases.now)) (number other)) }
{
    let mut chosen = Vec::new(alloc);
    for (index, test) in tests.iter().enumerate() {
        if index < cases.len() {
            chosen.push((*test, cases[index]))?;
        }
    }
    Ok(End::Choose {
        cases: chosen,
        other,
    })
}

impl Flat {
    ghost use Rattle.std.specs.Prelude.{◌≡◌, ◌+◌, ℕ, List, [], ◌∷◌, ◌++◌, map, length, IfOk, OnOk};
    ghost use Rattle.std.specs.Option.{option_map};
    ghost use Rattle.std.specs.List.{zip};
    ghost use Rattle.ir_core.specs.Trees.{exit_of, block_of, body_of, part_of, part_row, shape_of};
    ghost use Rattle.ir_layout.specs.Layout as spec;
    ghost use Rattle.ir_layout.specs.Listing.{ArePartsSized};
    ghost use Rattle.ir_layout.specs.Nodes.{node_point, node_of, end_of, looped};
    ghost use Rattle.ir_layout.specs.Views.{number, stacked, around_of, ahead_view};

    pub fn new(alloc: Global) -> Flat
        ensures nodes { result.nodes.items ≡ [] }
        ensures lands { result.lands.items ≡ [] }
    {
        Flat {
            alloc,
            nodes: Vec::new(alloc),
            lands: Vec::new(alloc),
        }
    }

    pub fn alloc(&self) -> Global {
        self.alloc
    }

    /// Where the next node will stand.
    pub fn place(&self) -> Result<u32, AllocError>
        ensures { IfOk result (λ place. place ≡ length self.now.nodes.items) }
    {
        u32::try_from(self.nodes.len()).map_err(|_| impossible())
    }

    pub fn finish(self) -> Vec<Node<Untimed>>
        ensures { result ≡ self.nodes }
    {
        self.nodes
    }

    /// Notes the places in these parts that are left to from within, of which the first shape begins at this place.
    pub fn note_lands(&mut self, sizes: &[u32], base: u32, parts: &[Part]) -> Result<(), AllocError>
        requires { ArePartsSized sizes.now base (part_row (map part_of parts.now)) }
        ensures nodes { self.new.nodes ≡ self.old.nodes }
        ensures lands { OnOk result (stacked self.new.lands.items ≡ spec.lands_in base (part_row (map part_of parts.now)) (stacked self.old.lands.items)) }
    {
        let ends = shape_ends(self.alloc, sizes, base, parts)?;
        let mut left = parts.len();
        while left > 0 {
            left -= 1;
            let behind = end_at(&ends, left);
            self.note(&parts[left].shape, behind)?;
        }
        Ok(())
    }

    /// Notes the place behind a shape, if it is left to from within.
    #[tactic(auto, using(crate::proofs::Stacks::stacked_more))]
    fn note(&mut self, shape: &Shape, place: u32) -> Result<(), AllocError>
        ensures nodes { self.new.nodes ≡ self.old.nodes }
        ensures lands { OnOk result (stacked self.new.lands.items ≡ spec.with_land place (shape_of shape.now) (stacked self.old.lands.items)) }
    {
        if let Shape::Land(land) = shape {
            self.lands.push(Landing {
                number: *land,
                place: NodeId(place),
            })?;
        }
        Ok(())
    }

    /// Control has come to a shape: if it is a place that was noted, it stands behind no more.
    pub fn come_to(&mut self, shape: &Shape)
        ensures nodes { self.new.nodes ≡ self.old.nodes }
        ensures lands { (place : ℕ) (lands : List spec.Landing) → stacked self.old.lands.items ≡ spec.with_land place (shape_of shape.now) lands → stacked self.new.lands.items ≡ lands }
    {
        if let Shape::Land(_) = shape {
            let _passed = self.lands.pop();
        }
    }

    /// How a block ends from which control goes these ways.
    fn end(&self, outs: &[Out], exit: &Exit, ways: &Ways, around: Around) -> Result<End, AllocError>
        ensures { IfOk result (λ end. end_of end ≡ spec.end_for (around_of around (stacked self.now.lands.items)) outs.now (ahead_view ways.now) (exit_of exit.now)) }
    {
        match (exit, ways) {
            (Exit::Break, _) => Ok(jump(around.leave)),
            (Exit::Continue, _) => Ok(jump(around.again)),
            (Exit::Leave(land), _) => Ok(jump(land_place(&self.lands, *land))),
            (Exit::Branch(test), Ways::Test { yes, no }) => Ok(End::Branch {
                test: *test,
                yes: *yes,
                no: *no,
            }),
            (Exit::Choose(tests), Ways::Cases { cases, other }) => {
                choose(self.alloc, tests, cases, *other)
            }
            (_, Ways::Return) => Ok(End::Return(return_value(outs, around.returned))),
            (_, Ways::Node(node)) => Ok(End::Jump(*node)),
            (_, Ways::Test { no, .. }) => Ok(End::Jump(*no)),
            (_, Ways::Cases { other, .. }) => Ok(End::Jump(*other)),
        }
    }

    /// Adds a block from which control goes these ways.
    pub fn add_block(
        &mut self,
        block: BasicBlock,
        ways: &Ways,
        around: Around,
    ) -> Result<(), AllocError>
        ensures points { OnOk result (map node_point self.new.nodes.items ≡ map node_point self.old.nodes.items ++ block.point ∷ []) }
        ensures nodes { OnOk result (map node_of self.new.nodes.items ≡ map node_of self.old.nodes.items ++ spec.laid_block (around_of around (stacked self.old.lands.items)) (ahead_view ways.now) (block_of block) ∷ []) }
        ensures place { OnOk result (length self.new.nodes.items ≡ length self.old.nodes.items + 1) }
        ensures lands { self.new.lands ≡ self.old.lands }
    {
        let BasicBlock {
            point,
            ops,
            outs,
            exit,
        } = block;
        let end = self.end(outs.as_slice(), &exit, ways, around)?;
        let body = Body {
            ops,
            outs,
            test: None,
        };
        let length = 0;
        self.nodes.push(Node::Plain(Block {
            point,
            body,
            end,
            length,
        }))?;
        Ok(())
    }

    /// Adds a loop whose iterations may overlap.
    pub fn add_loop(
        &mut self,
        point: Point,
        body: Body<Untimed>,
        next: NodeId,
    ) -> Result<(), AllocError>
        ensures points { OnOk result (map node_point self.new.nodes.items ≡ map node_point self.old.nodes.items ++ point ∷ []) }
        ensures nodes { OnOk result (map node_of self.new.nodes.items ≡ map node_of self.old.nodes.items ++ looped point (body_of body) (number next) ∷ []) }
        ensures lands { self.new.lands ≡ self.old.lands }
    {
        self.nodes.push(Node::Looped(Loop {
            point,
            body,
            next,
            ii: 0,
            exit: 0,
        }))?;
        Ok(())
    }
}

use hls_base::number::{NodeId, OpId, VarId};
use hls_base::place::{Path, Place};
use hls_base::point::{Point, PointKind};
use hls_base::text::Text;
use ir_core::body::{Body, Op, OpKind, Operand, Out, Source};
use ir_core::cfg::{Block, Cfg, End, Frame, Loop, Node};
use ir_core::stamp::Untimed;
use program_validity::program::valid;
use smallvec::SmallVec;
use std::alloc::Global;
use std::test::Fail;

const HERE: Place = Place {
    line: 3,
    column: 5,
    part: 0,
};

fn operand(value: Source, distance: u32) -> Operand {
    Operand { value, distance }
}

fn point(alloc: Global, kind: PointKind) -> Result<Point, Fail> {
    Ok(Point {
        path: Path::new(Vec::new(alloc)),
        at: HERE,
        kind,
    })
}

/// An operation on the variable of the iteration before and a constant.
fn counting(
    alloc: Global,
    kind: OpKind,
    limit: u64,
    flag: Option<Place>,
) -> Result<Op<Untimed>, Fail> {
    let args = [
        operand(Source::Variable(VarId(0)), 1),
        operand(Source::Constant(limit), 0),
    ];
    Ok(Op {
        kind,
        signed: true,
        bits: 32,
        args: SmallVec::from_slice(alloc, &args)?,
        array: None,
        guard: None,
        flag,
        stamp: Untimed,
    })
}

fn block(alloc: Global, kind: PointKind, end: End) -> Result<Node<Untimed>, Fail> {
    Ok(Node::Plain(Block {
        point: point(alloc, kind)?,
        body: Body {
            ops: Vec::new(alloc),
            outs: Vec::new(alloc),
            test: None,
        },
        end,
        length: 0,
    }))
}

/// A loop that counts a variable up to a limit, where the sum has this flag.
fn region(alloc: Global, limit: u64, flag: Option<Place>) -> Result<Node<Untimed>, Fail> {
    let test = counting(alloc, OpKind::Lt, limit, None)?;
    let sum = counting(alloc, OpKind::Add, 1, flag)?;
    let out = Out {
        variable: VarId(0),
        value: operand(Source::Result(OpId(1)), 0),
    };
    Ok(Node::Looped(Loop {
        point: point(alloc, PointKind::Body)?,
        body: Body {
            ops: vec![in alloc; test, sum]?,
            outs: vec![in alloc; out]?,
            test: Some(operand(Source::Result(OpId(0)), 0)),
        },
        next: NodeId(2),
        ii: 0,
        exit: 0,
    }))
}

/// A block before such a loop, and one of this kind behind it that gives the variable.
fn program(
    alloc: Global,
    limit: u64,
    flag: Option<Place>,
    kind: PointKind,
) -> Result<Cfg<Untimed>, Fail> {
    let given = Some(operand(Source::Variable(VarId(0)), 0));
    let before = block(alloc, PointKind::Begin, End::Jump(NodeId(1)))?;
    let behind = block(alloc, kind, End::Return(given))?;
    Ok(Cfg {
        frame: Frame {
            name: Text::from_slice(alloc, b"count")?,
            params: vec![in alloc; VarId(0)]?,
            variables: vec![in alloc; 32]?,
            memories: Vec::new(alloc),
            kept: Vec::new(alloc),
            ret: 32,
        },
        nodes: vec![in alloc; before, region(alloc, limit, flag)?, behind]?,
        first: NodeId(0),
    })
}

#[test]
fn counting_loop_is_valid(rt: HostRuntime) -> Result<(), Fail> {
    let cfg = program(rt.alloc(), 4, Some(HERE), PointKind::End)?;
    assert!(rt; valid(&cfg));
    Ok(())
}

#[test]
fn wide_constant_is_not_valid(rt: HostRuntime) -> Result<(), Fail> {
    let cfg = program(rt.alloc(), 1 << 32, Some(HERE), PointKind::End)?;
    assert!(rt; !valid(&cfg));
    Ok(())
}

#[test]
fn signed_sum_without_flag_is_not_valid(rt: HostRuntime) -> Result<(), Fail> {
    let cfg = program(rt.alloc(), 4, None, PointKind::End)?;
    assert!(rt; !valid(&cfg));
    Ok(())
}

#[test]
fn loop_that_leads_to_a_step_is_not_valid(rt: HostRuntime) -> Result<(), Fail> {
    let cfg = program(rt.alloc(), 4, Some(HERE), PointKind::Step)?;
    assert!(rt; !valid(&cfg));
    Ok(())
}

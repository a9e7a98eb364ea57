//! The trees of sources: one of each production, and how operators group.
use c_token::ctype::CType;
use c_tree::action::Action;
use c_tree::expression::Expr;
use c_tree::object::Object;
use c_tree::operator::{Binary, Unary};
use c_tree::program::{Item, Program};
use c_tree::statement::Stmt;
use checked_source::read::read_program;
use std::test::Fail as TestFail;

const INT: CType = CType::Int {
    signed: true,
    bits: 32,
};

fn body(program: &Program) -> Option<&[Stmt]> {
    match program.items.first()? {
        Item::Function(f) => f.body.as_ref().map(|body| body.as_slice()),
        Item::Objects(_) => None,
    }
}

fn first_statement(program: &Program) -> Option<&Stmt> {
    body(program)?.first()
}

fn returned(program: &Program) -> Option<&Expr> {
    match first_statement(program)? {
        Stmt::Return { value, .. } => value.as_ref(),
        _ => None,
    }
}

fn is_binary(e: &Expr, wanted: Binary) -> bool {
    matches!(e, Expr::Binary { op, .. } if *op == wanted)
}

fn is_name(e: &Expr, wanted: &[u8]) -> bool {
    matches!(e, Expr::Name { name, .. } if name.is_same(wanted))
}

#[test]
fn differences_group_to_the_left(rt: HostRuntime) -> Result<(), TestFail> {
    let made = read_program(rt.alloc(), "int f ( ) { return a - b - c ; }".as_bytes())?;
    assert!(rt;
        matches!(returned(&made), Some(Expr::Binary { op: Binary::Sub, left, right, .. }) if is_binary(left, Binary::Sub) && is_name(right, b"c"))
    );
    assert_eq!(rt; made.end.column, 33);
    Ok(())
}

#[test]
fn choices_group_to_the_right(rt: HostRuntime) -> Result<(), TestFail> {
    let made = read_program(
        rt.alloc(),
        "int f ( ) { return a ? b : c ? d : e ; }".as_bytes(),
    )?;
    assert!(rt;
        matches!(returned(&made), Some(Expr::Choice { test, no, .. }) if is_name(test, b"a") && matches!(&**no, Expr::Choice { .. }))
    );
    Ok(())
}

#[test]
fn products_are_tighter_than_sums(rt: HostRuntime) -> Result<(), TestFail> {
    let made = read_program(
        rt.alloc(),
        "int f ( ) { return b != 0 && a / b > 2 ; }".as_bytes(),
    )?;
    assert!(rt;
        matches!(returned(&made), Some(Expr::Binary { op: Binary::LogAnd, left, right, .. }) if is_binary(left, Binary::Ne) && is_binary(right, Binary::Gt))
    );
    Ok(())
}

#[test]
fn prefixes_hold_what_is_behind(rt: HostRuntime) -> Result<(), TestFail> {
    let made = read_program(rt.alloc(), "int f ( ) { return - a ++ ; }".as_bytes())?;
    assert!(rt;
        matches!(returned(&made), Some(Expr::Unary { op: Unary::Minus, arg, .. }) if matches!(&**arg, Expr::Bump { post: true, .. }))
    );
    let made = read_program(rt.alloc(), "int f ( ) { return ( int ) - a ; }".as_bytes())?;
    assert!(rt;
        matches!(returned(&made), Some(Expr::Cast { to: INT, arg, at }) if at.column == 20 && matches!(&**arg, Expr::Unary { .. }))
    );
    Ok(())
}

#[test]
fn changes_are_actions(rt: HostRuntime) -> Result<(), TestFail> {
    let made = read_program(
        rt.alloc(),
        "int f ( ) { a = b = c , ( d ++ ) ; }".as_bytes(),
    )?;
    assert!(rt;
        matches!(first_statement(&made), Some(Stmt::Act(all)) if matches!(all.as_slice(), [Action::Assign { value, .. }, Action::Value(_)] if matches!(value, Expr::Assign { .. })))
    );
    Ok(())
}

#[test]
fn else_is_of_the_nearest_if(rt: HostRuntime) -> Result<(), TestFail> {
    let made = read_program(
        rt.alloc(),
        "int f ( ) { if ( a ) if ( b ) ; else c = 1 ; }".as_bytes(),
    )?;
    assert!(rt;
        matches!(first_statement(&made), Some(Stmt::If { yes, no: None, .. }) if matches!(&**yes, Stmt::If { no: Some(_), .. }))
    );
    Ok(())
}

#[test]
fn each_production_once(rt: HostRuntime) -> Result<(), TestFail> {
    let source =
        "static const int t [ 2 ] [ ] = { { 1 , 2 , } , { 3 } } , n ; inline unsigned char g ( int , long long a [ 4 ] ) ; void f ( void ) { int i = 0 ; for ( ; ; ) break ; for ( int k = 0 ; k < 3 ; k ++ , i += t [ k ] [ 0 ] ) continue ; while ( i ) { i = g ( i , 2 ) ; } do ; while ( ( i , 1 ) ) ; switch ( i ) { case 1 : return ; default : ++ i ; } return ; }";
    let made = read_program(rt.alloc(), source.as_bytes())?;
    assert_eq!(rt; made.items.len(), 3);
    assert!(rt;
        made.items.iter().any(|item| matches!(item, Item::Function(f) if f.params.len() == 2))
    );
    Ok(())
}

fn is_object(object: &Object, name: &[u8], column: u32, lengths: usize) -> bool {
    object.name.is_same(name) && object.at.column == column && object.lengths.len() == lengths
}

/// Whether a statement is one assignment to an element, at this token.
fn sets_an_element(statement: &Stmt, column: u32) -> bool {
    match statement {
        Stmt::Act(actions) => matches!(
            actions.as_slice(),
            [Action::Assign { target, op: None, value: Expr::Index { .. }, at }] if target.subscripts.len() == 1 && at.column == column
        ),
        _ => false,
    }
}

#[test]
fn parses_a_program(rt: HostRuntime) -> Result<(), TestFail> {
    let source =
        "const int t [ 2 ] ; void f ( int a , int b [ ] ) { if ( a ) b [ 0 ] = t [ a ] ; else return ; }";
    let program = read_program(rt.alloc(), source.as_bytes())?;
    assert_eq!(rt; program.end.column, 96);
    let [Item::Objects(objects), Item::Function(f)] = program.items.as_slice() else {
        return Err("objects and a function".into());
    };
    assert!(rt;
        matches!(objects.as_slice(), [t] if t.constant && t.kind == INT && is_object(t, b"t", 11, 1))
    );
    assert!(rt; f.name.is_same(b"f") && f.at.column == 26 && f.result.is_none());
    assert!(rt;
        matches!(f.params.as_slice(), [a, b] if is_object(&a.object, b"a", 34, 0) && is_object(&b.object, b"b", 42, 1))
    );
    let Some(body) = &f.body else {
        return Err("a body".into());
    };
    assert!(rt;
        matches!(body.as_slice(), [Stmt::If { test, yes, no: Some(no), at }] if at.column == 52 && is_name(test, b"a") && sets_an_element(yes, 69) && no.at.column == 81)
    );
    Ok(())
}

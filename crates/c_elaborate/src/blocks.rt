//! Objects of functions, and the blocks that they belong to.
ghost use Rattle.std.specs.Prelude.{◌≡◌, ◌-◌, ◌++◌, map, length, drop, IfOk, OnOk};
ghost use Rattle.c_tree.specs.View.{object_of, stmt_of, stmts_of};
ghost use Rattle.c_meaning.specs.Store.{lengths_in, declared_in};
ghost use Rattle.c_meaning.specs.Store as store;
ghost use Rattle.pieces.specs.Resolved.CoreView.{core_object_of};
ghost use Rattle.c_elaborate.specs.Names.{binding_of};
ghost use Rattle.c_elaborate.specs.Objects.{object_elaborated, from};

use crate::names::{Binding, Known, Scopes};
use crate::numbers::{next_number, number_behind};
use c_meaning::lengths::lengths;
use c_token::ctype::CType;
use c_tree::object::Object;
use c_tree::statement::Stmt;
use c_value::kind::INT;
use pieces::resolved::expression::{Cell, Scope};
use pieces::resolved::program::CoreObject;
use std::alloc::{AllocError, Global};

/// The names that are visible at a place of a function, the number of the object that is declared next, and the type of the labels of the innermost switch.
#[derive(Drop)]
pub struct Scene {
    pub names: Scopes,
    pub next: u32,
    pub labels: CType,
}

/// Where a part of a function began that is a scope: how many names were visible, and the rest of the scene.
#[derive(Clone, Copy, PartialEq, Eq)]
pub struct Mark {
    pub names: usize,
    pub next: u32,
    pub labels: CType,
}

impl Scene {
    ghost use Rattle.std.specs.Prelude.{◌≡◌, ◌-◌, length, drop, IfOk, OnOk};
    ghost use Rattle.c_tree.specs.View.{object_of};
    ghost use Rattle.c_elaborate.specs.Scenes.{file_scene, declared, opened, returned};

    /// File scope, with these names.
    pub fn of_file(names: Scopes) -> Scene
        ensures { result ≡ file_scene names }
    {
        Scene {
            names,
            next: 0,
            labels: INT,
        }
    }

    pub fn mark(&self) -> Mark
        ensures names { result.names ≡ length self.now.names }
        ensures next { result.next ≡ self.now.next }
        ensures labels { result.labels ≡ self.now.labels }
    {
        Mark {
            names: self.names.len(),
            next: self.next,
            labels: self.labels,
        }
    }

    /// A part begins, whose objects are numbered behind so many others.
    pub fn open(&mut self, objects: usize) -> Result<(), AllocError>
        ensures { OnOk result (self.new ≡ opened self.old objects) }
    {
        self.next = number_behind(objects)?;
        Ok(())
    }

    /// A part ends that began here.
    pub fn leave(&mut self, mark: Mark)
        ensures { self.new ≡ returned mark self.old }
    {
        self.names.forget(mark.names);
        self.next = mark.next;
        self.labels = mark.labels;
    }

    /// Makes the name stand for the next object, whose number is given back.
    pub fn declare(&mut self, alloc: Global, o: &Object) -> Result<u32, AllocError>
        ensures number { IfOk result (λ n. n ≡ self.old.next) }
        ensures scene { OnOk result (self.new ≡ declared self.old (object_of o.now)) }
    {
        let number = self.next;
        let cell = Cell {
            scope: Scope::Call,
            number,
        };
        let binding = binding(alloc, o, cell)?;
        self.names.declare(alloc, binding)?;
        self.next = next_number(number)?;
        Ok(number)
    }
}

/// The name of an object that stands in this cell.
pub fn binding(alloc: Global, o: &Object, cell: Cell) -> Result<Binding, AllocError>
    ensures { IfOk result (λ b. b ≡ binding_of (object_of o.now) cell) }
{
    let name = o.name.copy(alloc)?;
    let object = Known {
        cell,
        kind: o.kind,
        is_array: o.lengths.len() != 0,
    };
    Ok(Binding { name, object })
}

/// The lengths of an object's dimensions.
fn dimensions(alloc: Global, o: &Object) -> Result<Vec<u32>, AllocError>
    ensures { IfOk result (λ all. all.items ≡ lengths_in (object_of o.now)) }
{
    let found = lengths(alloc, o)?;
    let mut all = Vec::new(alloc);
    for length in &found {
        all.push(number_behind(*length)?)?;
    }
    Ok(all)
}

/// An object as it is declared.
pub fn core_object(alloc: Global, o: &Object) -> Result<CoreObject, AllocError>
    ensures { IfOk result (λ it. core_object_of it ≡ object_elaborated (object_of o.now)) }
{
    let name = o.name.copy(alloc)?;
    let lengths = dimensions(alloc, o)?;
    Ok(CoreObject {
        name,
        kind: o.kind,
        lengths,
        constant: o.constant,
    })
}

/// What a statement of a block declares in it.
pub fn declared_by(stmt: &Stmt) -> &[Object]
    ensures { map object_of result.now ≡ store.declared_by (stmt_of stmt.now) }
{
    match stmt {
        Stmt::Declare(objects) => objects,
        _ => &[],
    }
}

/// Adds objects to the function, and their numbers to those of a block.
pub fn add_objects(
    alloc: Global,
    all: &mut Vec<CoreObject>,
    numbers: &mut Vec<u32>,
    objects: &[Object],
) -> Result<(), AllocError>
    ensures objects { OnOk result (map core_object_of all.new.items ≡ map core_object_of all.old.items ++ map (λ o. object_elaborated (object_of o)) objects.now) }
    ensures numbers { OnOk result (numbers.new.items ≡ numbers.old.items ++ from (length all.old.items) (length objects.now)) }
{
    for o in objects {
        numbers.push(number_behind(all.len())?)?;
        all.push(core_object(alloc, o)?)?;
    }
    Ok(())
}

/// Adds the objects that the statements of a block declare in it, and gives their numbers back.
pub fn enter(
    alloc: Global,
    all: &mut Vec<CoreObject>,
    body: &[Stmt],
) -> Result<Vec<u32>, AllocError>
    ensures objects { OnOk result (map core_object_of all.new.items ≡ map core_object_of all.old.items ++ map object_elaborated (declared_in (stmts_of body.now))) }
    ensures numbers { IfOk result (λ numbers. numbers.items ≡ from (length all.old.items) (length (declared_in (stmts_of body.now)))) }
{
    let mut numbers = Vec::new(alloc);
    for stmt in body {
        add_objects(alloc, all, &mut numbers, declared_by(stmt))?;
    }
    Ok(numbers)
}

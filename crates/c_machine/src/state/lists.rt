//! Lists that grow at their ends, one within another.
use std::alloc::{AllocError, Global};
use std::marker::Model;

/// The lists that are open; a list is closed before those that were opened before it.
#[derive(Drop)]
pub struct Lists<T: Copy> {
    lists: Vec<Vec<T>>,
}

impl<T: Copy> Model for Lists<T> {
    ghost use Rattle.std.specs.Prelude.{List, map, reverse};
    ghost use Rattle.std.specs.declared.vec.Vec.{Vec};

    ghost Value = { List (List T) };

    ghost view = { λ l. reverse (map (λ v. v.items) l.lists.items) };
}

impl<T: Copy> Lists<T> {
    ghost use Rattle.std.specs.Prelude.{◌≡◌, [], ◌∷◌, OnOk, OnErr};
    ghost use Rattle.c_machine.specs.State.Lists.{tail, latest, one_more};

    pub fn new(alloc: Global) -> Lists<T>
        ensures { result ≡ [] }
    {
        Lists {
            lists: Vec::new(alloc),
        }
    }

    /// Opens a list without elements.
    pub fn open(&mut self, alloc: Global) -> Result<(), AllocError>
        ensures ok { OnOk result (self.new ≡ [] ∷ self.old) }
        ensures err { OnErr result (self.new ≡ self.old) }
    {
        self.lists.push(Vec::new(alloc))?;
        Ok(())
    }

    /// Adds an element to the list that was opened last.
    pub fn add(&mut self, alloc: Global, element: T) -> Result<(), AllocError>
        ensures ok { OnOk result (self.new ≡ one_more element self.old) }
        ensures err { OnErr result (self.new ≡ self.old) }
    {
        match self.lists.pop() {
            Some(mut list) => {
                let pushed = list.push(element);
                self.lists.push_reserved(list);
                pushed?;
                Ok(())
            }
            None => {
                let mut list = Vec::new(alloc);
                list.push(element)?;
                self.lists.push(list)?;
                Ok(())
            }
        }
    }

    /// Closes the list that was opened last.
    pub fn close(&mut self)
        ensures { self.new ≡ tail self.old }
    {
        self.lists.pop();
    }

    /// The list that was opened last.
    pub fn last(&self) -> &[T]
        ensures { result.now ≡ latest self.now }
    {
        match self.lists.last() {
            Some(list) => list.as_slice(),
            None => &[],
        }
    }
}

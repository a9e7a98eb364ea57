//! The objects that names stand for.
ghost use Rattle.std.specs.Prelude.{◌≡◌};
ghost use Rattle.c_meaning.specs.Store.{find_name, object_found};

use c_meaning::names::Binding;

#[tactic(auto, using(crate::proofs::StateLemmas::Naming::naming))]
/// The object of the innermost binding of a name.
pub fn find_name(bindings: &[Binding], name: &[u8]) -> Option<usize>
    ensures { result ≡ find_name bindings.now name.now }
{
    for i in (0..bindings.len()).rev() {
        let binding = &bindings[i];
        if binding.name.is_same(name) {
            return Some(binding.object);
        }
    }
    None
}

/// The object that a name stands for, where the inner names hide those of file scope.
pub fn object_named(inner: &[Binding], file: &[Binding], name: &[u8]) -> usize
    ensures { result ≡ object_found (find_name inner.now name.now) (find_name file.now name.now) }
{
    match find_name(inner, name) {
        Some(object) => object,
        None => find_name(file, name).unwrap_or(0),
    }
}

//! The names that are in scope.
use hls_base::text::Text;

/// A name, and the object that it stands for.
#[derive(Drop)]
pub struct Binding {
    pub name: Text,
    pub object: usize,
}

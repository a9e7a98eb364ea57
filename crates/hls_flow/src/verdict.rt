//! What a comparison is given.
use hls_base::text::Text;

/// The texts of a program, of its module, of its report and of a run file, the name of the top function, and how many points the run of the program may pass, and how many cycles a wait for a pin may take.
#[derive(Drop)]
pub struct CosimInputs {
    pub source: Text,
    pub module: Text,
    pub report: Text,
    pub run: Text,
    pub top: Text,
    pub points: u64,
    pub cycles: u64,
}

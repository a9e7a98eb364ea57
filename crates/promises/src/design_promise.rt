//! The law of compiled circuits.
ghost use Rattle.promises.specs.DesignPromise.{DesignsKeepPromise};

/// The circuit of a source without faults agrees with the box of the C function, to the cycle that the report's formula gives.
pub fn designs_keep_promise()
    ensures { DesignsKeepPromise }
{}

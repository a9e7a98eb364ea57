//! Laws of the order of the arrays of expanded programs.
ghost use Rattle.source_validity.specs.LeadingHosts.{ExpandedHostsComeFirst};

/// The arrays that the host reaches stand before those of file scope and of calls.
pub fn expanded_hosts_come_first()
    ensures { ExpandedHostsComeFirst }
{}

//! Outsides whose answers follow from what they were. The functions do nothing: their contracts are
//! the laws.

ghost use Rattle.outside_hosted.specs.Makes.{Makes as HostMakes};
ghost use Rattle.outside_scripted.specs.Makes.{Makes};
ghost use Rattle.laws_determined.specs.Steady.Steady.{IsSteady};

/// What a scripted outside answers, and what it is then, follows from what it was and from what it
/// is asked, want of memory aside.
pub fn scripts_are_steady()
    ensures { IsSteady Makes }
{}

/// So it is of an outside that a host feeds.
pub fn hosts_are_steady()
    ensures { IsSteady HostMakes }
{}

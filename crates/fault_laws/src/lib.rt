//! Laws of the faults of documents.
#![tactic(auto)]

ghost use Rattle.fault_laws.specs.OneFault.{NoFault, OneFault, OnePageFault};

/// The same bytes have no two faults, a page of a listing neither, and none where they are a document whose elements have
/// none.
pub fn one_fault()
    ensures one { OneFault }
    ensures page { OnePageFault }
    ensures none { NoFault }
{}

//! Laws of the definitions of the calls, each the contract of a function that does nothing.

ghost use Rattle.dl_buffers.specs.AroundCallLaws.{ChecksAlike, FindsAlike, TellsFirst};
ghost use Rattle.dl_buffers.specs.FaultCalls.{FaultsAreTold};

/// The text of each fault that a call tells is that of its offset and its kind.
pub fn faults_are_told()
    ensures { FaultsAreTold }
{}

/// Where nothing is damaged, the calls that go on after damaged units answer what they answer else; where a unit is,
/// they tell the same fault.
pub fn going_on_tells_the_same()
    ensures counts { ChecksAlike }
    ensures first { TellsFirst }
    ensures found { FindsAlike }
{}

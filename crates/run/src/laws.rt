// Laws of the calls, over every word kind.
ghost use Rattle.run.specs.Laws.{RefusedSteps, RefusedAdditions, NamesLowest};

use memory::word::Word;

// A refused call changes nothing, and a bound instruction's refusal names the lowest pending position that binds it.
pub fn refusals_stand<W: Word>(_sample: &W) -> u8
    ensures steps { RefusedSteps W }
    ensures additions { RefusedAdditions W }
    ensures bound { NamesLowest W }
{
    0
}

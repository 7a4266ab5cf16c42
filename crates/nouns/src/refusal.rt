// "Refusal numbers".
ghost use Rattle.std.specs.Prelude.{◌≡◌};
ghost use Rattle.paper.specs.Refusal.{number_of, offset_in};

use paper::Refusal;

pub fn number_of(why: Refusal) -> u32
    ensures { result ≡ number_of why }
{
    match why {
        Refusal::Setup => 1,
        Refusal::Unsound => 11,
        Refusal::Room => 2,
        Refusal::UnknownKind => 31,
        Refusal::WrongLength => 32,
        Refusal::WrongWay => 33,
        Refusal::WrongLead => 34,
        Refusal::WrongField(_) => 35,
        Refusal::Op => 4,
        Refusal::Instance => 6,
        Refusal::RecoverCommitted => 8,
        Refusal::NudgeIdle => 9,
        Refusal::BallotsUsedUp => 7,
        Refusal::NoBlank => 5,
        Refusal::OtherCommit => 10,
    }
}

pub fn offset_in(why: Refusal) -> usize
    ensures { result ≡ offset_in why }
{
    match why {
        Refusal::WrongField(offset) => offset,
        _ => 0,
    }
}

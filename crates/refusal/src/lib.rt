// What is refused, by numbers that stay: a host in C has them, and the header's table. Every entry of the project answers with a refusal or with what it
// was asked for.
#![tactic(auto)]

ghost use Rattle.std.specs.Prelude.{◌≡◌};
ghost use Rattle.refusal.specs.Numbers.{number_of};

#[derive(Clone, Copy, Debug, PartialEq, Eq)]
pub enum Refusal {
    // Fewer than 15 bytes.
    TooShort = 1,
    // The first four bytes are neither sync string.
    NoSync = 2,
    // The number of bytes is not the one that form and N require.
    WrongLength = 3,
    // The checksum differs.
    WrongChecksum = 4,
    // The observation index is N or more.
    NoObservation = 5,
    // The output has fewer bytes than the message or the record needs.
    NoRoom = 6,
    // Converting: not of the form converted from, or, to the old form, TYPE is not 0.
    OtherForm = 7,
    // The stream reader's window or output has fewer than 6,136 bytes, or a list of breaks no room for 255 of them.
    SmallBuffer = 8,
    // A reader state that no reader leaves.
    BadState = 9,
    // A feed after the end was announced.
    Ended = 10,
    // The stream would pass 2^48 bytes.
    TooMuch = 11,
    // The start is past the end of the slice.
    PastEnd = 12,
    // A range record of another length than 24 bytes.
    OtherLength = 13,
    // A corrected ADR of another signal than GPS L1 C/A.
    OtherSignal = 22,
    // A number that its field cannot hold.
    TooWide = 23,
}

// The refusal's number.
pub fn number(refusal: Refusal) -> u64
    ensures { result ≡ number_of refusal }
{
    refusal as u64
}

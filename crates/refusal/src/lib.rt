// The refusals of all operations, and the lengths that lent buffers must have.
#![tactic(auto)]

ghost use Rattle.std.specs.Prelude.{◌≡◌};
ghost use Rattle.refusal.specs.Refusals.{number_of, place_of};

// The lengths that lent buffers must have, asked by refusal 1: a row, the table of net records, the ring, the board
// file written, the judge's scratch, and the words of a draft.
pub const ROW_TRAY: usize = 512;

pub const RECORD_TRAY: usize = 511;

pub const RING_TRAY: usize = 1022;

pub const BOARD_TRAY: usize = 10240;

pub const SCRATCH_TRAY: usize = 5119;

pub const DRAFT_TRAY: usize = 4096;

// The refusals that an operation may answer, by the shop's words, each with its place. Numbers 6, 17, 19 and 20 are not
// in use. The judge's faults, numbers 11 to 13, are an enum of their own beside the judge.
#[derive(Clone, Copy, Debug, PartialEq, Eq)]
pub enum Refusal {
    // 1: a lent buffer is too short; the length needed
    ShortTray(usize),
    // 2: the text is not a pin list; the length of the longest start that some pin list shares
    Garbled(usize),
    // 3: a row has over 512 columns; 513
    TooWide(usize),
    // 4: the rows differ in length or are empty; the shorter length plus 1
    Uneven(usize),
    // 5: a net number over 511; the lowest pin position that holds one
    HighNet(usize),
    // 7: the vertical constraint graph has a cycle; the number of pairs in the ring shown
    Tangled(usize),
    // 8: the board file has a wrong length; the length due
    Torn(usize),
    // 9: a field of the board file is out of range; 0 for the header, else the number of the piece
    BadField(usize),
    // 10: the board file's width is not that of the rows; the file's width
    WrongBoard(usize),
    // 14: a blank is wanted for over 512 tracks; the tracks
    NoBlank(usize),
    // 15: a table of blanks is bad; its first bad entry, from 1, or 0 if it has no entry, or more than 64
    BadTable(usize),
    // 16: no entry of a table of blanks holds so many tracks; the tracks
    NoStock(usize),
    // 18: on a panel a raised net number is over 511; the lowest such number
    PanelFull(usize),
    // 21: a net that comes or goes on a draft has no number of 1 to 511, or its columns do not rise within 1 to 512;
    // the net number
    BadSpan(usize),
    // 22: a net that comes is on the draft; the net number
    AlreadyHere(usize),
    // 23: a net that goes is not on the draft; the net number
    NotHere(usize),
}

// The number of a refusal in the shop's table.
// No From: docs/PROMISES.md names this function and `place_of`.
pub fn number_of(refusal: Refusal) -> u32
    ensures { result ≡ number_of refusal }
{
    match refusal {
        Refusal::ShortTray(_) => 1,
        Refusal::Garbled(_) => 2,
        Refusal::TooWide(_) => 3,
        Refusal::Uneven(_) => 4,
        Refusal::HighNet(_) => 5,
        Refusal::Tangled(_) => 7,
        Refusal::Torn(_) => 8,
        Refusal::BadField(_) => 9,
        Refusal::WrongBoard(_) => 10,
        Refusal::NoBlank(_) => 14,
        Refusal::BadTable(_) => 15,
        Refusal::NoStock(_) => 16,
        Refusal::PanelFull(_) => 18,
        Refusal::BadSpan(_) => 21,
        Refusal::AlreadyHere(_) => 22,
        Refusal::NotHere(_) => 23,
    }
}

// The place that a refusal names.
pub fn place_of(refusal: Refusal) -> usize
    ensures { result ≡ place_of refusal }
{
    match refusal {
        Refusal::ShortTray(place)
        | Refusal::Garbled(place)
        | Refusal::TooWide(place)
        | Refusal::Uneven(place)
        | Refusal::HighNet(place)
        | Refusal::Tangled(place)
        | Refusal::Torn(place)
        | Refusal::BadField(place)
        | Refusal::WrongBoard(place)
        | Refusal::NoBlank(place)
        | Refusal::BadTable(place)
        | Refusal::NoStock(place)
        | Refusal::PanelFull(place)
        | Refusal::BadSpan(place)
        | Refusal::AlreadyHere(place)
        | Refusal::NotHere(place) => place,
    }
}

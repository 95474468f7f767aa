use crate::helpers::shares;
use models::Standard;
use run::MOST_CELLS;
use run_file::{Listing, Stop, list};
use std::process::Abort;
use std::test::Fail;
use values::{Buffer, Cell, Refusal, Shares};

// Two controllers, no faults, six rounds.
const WORKED: [u8; 34] = [
    0, 0, 0, 2, 0, 0, 6, 0, 0, 0, 16, 0, 20, 0, 34, 0, // the header
    0xf4, 1, 0x58, 2, // the proposals
    0, 0, 0, 0, 0, 0, 0, 0, 0, 0, 0, 0, 0, 0, // the sets
];

const WORKED_TEXT: &[u8] = b"run 2 0 6\n0 400\n1 400\n";

// The worked file with one byte altered.
fn altered(at: usize, byte: u8) -> [u8; 34] {
    let mut file = WORKED;
    if let Some(place) = file.get_mut(at) {
        *place = byte;
    }
    file
}

const OLD: Cell<u16> = Some(777);

fn old_sheet() -> Cell<Shares> {
    Some(shares(1, 2, 3, 4))
}

// What `list` returns of a file that is refused outside the rounds.
fn refused(len: usize, refusal: Refusal) -> Listing {
    Listing {
        len,
        stop: Some(refusal.into()),
    }
}

// Whether a file is refused with this number, and all cells stay.
fn leaves_cells(file: &[u8], number: u8) -> bool {
    let mut setpoints = [OLD; 30];
    let mut sheets = [old_sheet(); 30];
    let listing = list(file, &mut setpoints, &mut sheets, &mut [7; 512]);
    listing.number() == number && setpoints == [OLD; 30] && sheets == [old_sheet(); 30]
}

// Whether a file is listed with this text and number, and the bytes past the text stay.
fn lists(file: &[u8], expected: &[u8], number: u8) -> bool {
    let mut setpoints = [None; MOST_CELLS];
    let mut sheets = [None; 8];
    let mut text = [7; 512];
    let listing = list(file, &mut setpoints, &mut sheets, &mut text);
    let Some((words, rest)) = text.split_at_checked(listing.len) else {
        return false;
    };
    listing.number() == number && words == expected && rest.iter().all(|byte| *byte == 7)
}

// The round, the sender, the receiver, the column and the tag, and the value.
type Line = (u16, [u8; 4], u16);

// A vote on setpoints. The first of the sets is the initial one.
#[derive(Clone, Copy)]
struct Vote<'a> {
    model: Standard,
    stamps: bool,
    t: u8,
    proposals: &'a [u16],
    sets: &'a [u16],
    lines: &'a [Line],
}

fn put_number(out: &mut Buffer, number: u16) {
    let [low, high] = number.to_le_bytes();
    out.put_byte(low);
    out.put_byte(high);
}

fn number(len: usize) -> u16 {
    u16::try_from(len).unwrap_or(u16::MAX)
}

// Writes the file of a vote. Its offsets are what its counts give.
fn put_vote(out: &mut Buffer, vote: &Vote) {
    let n = vote.proposals.len();
    let sets_at = number(n).saturating_mul(2).saturating_add(16);
    let lines_at = number(vote.sets.len())
        .saturating_mul(2)
        .saturating_add(sets_at);
    let [n, _] = number(n).to_le_bytes();
    for byte in [0, vote.model.into(), vote.stamps.into(), n, vote.t, 0] {
        out.put_byte(byte);
    }
    put_number(out, number(vote.sets.len()).saturating_sub(1));
    put_number(out, number(vote.lines.len()));
    for offset in [16, sets_at, lines_at] {
        put_number(out, offset);
    }
    for proposal in vote.proposals {
        put_number(out, *proposal);
    }
    for set in vote.sets {
        put_number(out, *set);
    }
    for (round, bytes, value) in vote.lines {
        put_number(out, *round);
        for byte in bytes {
            out.put_byte(*byte);
        }
        put_number(out, *value);
    }
}

// What of a vote is another than in a vote at hand (its t, proposals and sets, or its lines), and then the text and the
// number that its file is listed with.
type Opened<'a> = (u8, &'a [u16], &'a [u16], &'a [u8], u8);

type Lined<'a> = (&'a [Line], &'a [u8], u8);

fn come_to(rt: &impl Abort, vote: Vote, cases: &[Opened]) {
    for (at, (t, proposals, sets, expected, number)) in cases.iter().enumerate() {
        let t = *t;
        let other = Vote {
            t,
            proposals,
            sets,
            ..vote
        };
        assert!(rt; comes_to(&other, expected, *number), "in case {at}");
    }
}

fn lines_come_to(rt: &impl Abort, vote: Vote, cases: &[Lined]) {
    for (at, (lines, expected, number)) in cases.iter().enumerate() {
        let other = Vote { lines, ..vote };
        assert!(rt; comes_to(&other, expected, *number), "in case {at}");
    }
}

// Whether the file of a vote is listed so.
fn comes_to(vote: &Vote, expected: &[u8], number: u8) -> bool {
    let mut room = [0; 2048];
    let mut out = Buffer::over(&mut room);
    put_vote(&mut out, vote);
    let len = out.len();
    let Some((file, _)) = room.split_at_checked(len) else {
        return false;
    };
    lists(file, expected, number)
}

#[test]
fn the_worked_file_is_listed(rt: HostRuntime) {
    assert!(rt; lists(&WORKED, WORKED_TEXT, 0));
}

#[test]
fn a_small_text_buffer_is_refused_first(rt: HostRuntime) {
    let no_room = refused(0, Refusal::TextRoom);
    let mut text = [7; 511];
    assert_eq!(rt; list(&WORKED, &mut [None; 26], &mut [], &mut text), no_room);
    assert_eq!(rt; list(&[], &mut [None; 26], &mut [], &mut text), no_room); // also 21
    assert_eq!(rt; text, [7; 511]);
    assert_eq!(rt; list(&WORKED, &mut [None; 26], &mut [], &mut []), no_room);
}

#[test]
fn a_file_has_16_to_65535_bytes(rt: HostRuntime) {
    assert!(rt; lists(&[], b"refused 21\n", 21));
    assert!(rt; lists(&[5; 15], b"refused 21\n", 21)); // also 22
    assert!(rt; lists(&[5; 16], b"refused 22\n", 22));
    let long = [5; 65536];
    assert!(rt; lists(&long[..65535], b"refused 22\n", 22));
    assert!(rt; lists(&long, b"refused 21\n", 21)); // also 22
}

#[test]
fn codes_have_a_meaning(rt: HostRuntime) {
    for (at, byte) in &[(0, 2), (0, 255), (1, 5), (1, 255), (2, 2), (2, 255), (5, 1)] {
        let mut file = altered(*at, *byte);
        assert!(rt; lists(&file, b"refused 22\n", 22), "{byte} at {at}");
        file[10] = 17; // also 23
        assert!(rt; lists(&file, b"refused 22\n", 22), "{byte} at {at}");
    }
}

#[test]
fn offsets_and_length_are_what_the_counts_give(rt: HostRuntime) {
    let offsets = [(10, 15), (10, 17), (12, 19), (12, 21), (14, 33), (14, 35)];
    for (at, byte) in &offsets {
        let mut file = altered(*at, *byte);
        assert!(rt; lists(&file, b"refused 23\n", 23), "{byte} at {at}");
        file[17] = 0xff; // also 24
        assert!(rt; lists(&file, b"refused 23\n", 23), "{byte} at {at}");
    }
    // the kind, n, R and G, and the high bytes of the offsets
    for at in &[0, 3, 6, 7, 8, 9, 11, 13, 15] {
        assert!(rt; lists(&altered(*at, 1), b"refused 23\n", 23), "1 at {at}");
    }
    assert!(rt; lists(&WORKED[..33], b"refused 23\n", 23));
    let mut longer = [0; 35];
    longer[..34].copy_from_slice(&WORKED);
    assert!(rt; lists(&longer, b"refused 23\n", 23));
    // R is 32767, so that the lines would start at 65536 + 16
    let wrapped = [0, 0, 0, 0, 0, 0, 0xff, 0x7f, 0, 0, 16, 0, 16, 0, 16, 0];
    assert!(rt; lists(&wrapped, b"refused 23\n", 23));
}

const PROPOSED: Vote = Vote {
    model: Standard::Aware,
    stamps: false,
    t: 0,
    proposals: &[200, 900],
    sets: &[0],
    lines: &[],
};

const UNLAWFUL: [Opened; 4] = [
    (0, &[199, 500], &[0], b"refused 24\n", 24),
    (0, &[500, 199], &[0], b"refused 24\n", 24),
    (0, &[901, 500], &[0], b"refused 24\n", 24),
    (0, &[500, 901], &[0], b"refused 24\n", 24),
];

#[test]
fn proposals_are_lawful(rt: HostRuntime) {
    let lawful = b"run 2 0 0\n0 none\n1 none\n";
    assert!(rt; comes_to(&PROPOSED, lawful, 0));
    come_to(&rt, PROPOSED, &UNLAWFUL);
    let faulty = Vote {
        lines: &[(0, [0, 0, 0, 2], 0)],
        ..PROPOSED
    };
    come_to(&rt, faulty, &UNLAWFUL); // also 25
}

const LINED: Vote = Vote {
    model: Standard::Fixed,
    stamps: false,
    t: 1,
    proposals: &[500; 4],
    sets: &[8; 4],
    lines: &[],
};

const SOUND: &[Line] = &[
    (1, [3, 0, 0, 0], 0),
    (1, [3, 0, 0, 1], 200),
    (2, [3, 0, 0, 1], 900),
];

// the round of the line before
const OUT_OF_ORDER: &[Line] = &[
    (0, [3, 0, 0, 0], 0),
    (2, [3, 0, 0, 0], 0),
    (1, [3, 0, 0, 0], 0),
];

const VALUE_FIRST: &[Line] = &[(1, [3, 0, 0, 1], 199), (0, [3, 0, 0, 2], 0)];

const TAG_FIRST: &[Line] = &[(1, [3, 0, 0, 2], 0), (1, [3, 0, 0, 1], 199)];

// all lines are checked before anything is forged
const NOT_FORGEABLE: &[Line] = &[(0, [0, 0, 0, 1], 500), (2, [3, 0, 0, 1], 199)];

const LINES: [Lined; 15] = [
    (SOUND, b"run 4 1 3\n0 none\n1 none\n2 none\n3 upset\n", 0),
    (&[(3, [3, 0, 0, 1], 500)], b"refused 25\n", 25),
    (&[(3, [3, 0, 0, 1], 199)], b"refused 25\n", 25), // also 24
    (&[(0, [3, 0, 0, 2], 0)], b"refused 25\n", 25),
    (&[(0, [3, 0, 0, 2], 199)], b"refused 25\n", 25),
    (&[(0, [3, 0, 0, 255], 500)], b"refused 25\n", 25),
    (&[(0, [3, 0, 0, 0], 1)], b"refused 25\n", 25),
    (&[(0, [3, 0, 0, 0], 256)], b"refused 25\n", 25),
    (&[(0, [3, 0, 0, 1], 0)], b"refused 24\n", 24),
    (&[(0, [3, 0, 0, 1], 199)], b"refused 24\n", 24),
    (&[(0, [3, 0, 0, 1], 901)], b"refused 24\n", 24),
    (OUT_OF_ORDER, b"refused 25\n", 25),
    (VALUE_FIRST, b"refused 24\n", 24),
    (TAG_FIRST, b"refused 25\n", 25),
    (NOT_FORGEABLE, b"refused 24\n", 24), // also 10
];

#[test]
fn the_first_faulty_line_counts(rt: HostRuntime) {
    lines_come_to(&rt, LINED, &LINES);
}

const OPENED: Vote = Vote {
    model: Standard::Unaware,
    stamps: false,
    t: 1,
    proposals: &[500; 6],
    sets: &[1 << 5],
    lines: &[],
};

const OPENS: [Opened; 8] = [
    (1, &[], &[1 << 5], b"refused 1\n", 1), // also 2, 3, 6
    (1, &[500; 17], &[1 << 5], b"refused 1\n", 1), // also 4
    (1, &[199; 17], &[1 << 5], b"refused 24\n", 24), // also 1
    (6, &[500; 6], &[1 << 5], b"refused 2\n", 2), // also 3
    (255, &[500; 6], &[1 << 5], b"refused 2\n", 2), // also 3
    (1, &[500; 5], &[1 << 5], b"refused 3\n", 3), // also 6
    (1, &[500; 6], &[1 << 6], b"refused 6\n", 6),
    (1, &[500; 6], &[0b11], b"refused 6\n", 6),
];

#[test]
fn a_refused_open_is_told_without_a_round(rt: HostRuntime) {
    let listed = b"run 6 1 0\n0 none\n1 none\n2 none\n3 none\n4 none\n5 upset\n";
    assert!(rt; comes_to(&OPENED, listed, 0));
    come_to(&rt, OPENED, &OPENS);
}

#[test]
fn a_store_of_one_cell_too_few_is_refused(rt: HostRuntime) {
    let file = altered(20, 0b100);
    let mut text = [7; 512];
    assert_eq!(rt;
        list(&file, &mut [None; 25], &mut [None; 99], &mut text),
        refused(10, Refusal::StoreSize)
    ); // also 6
    assert!(rt; text.starts_with(b"refused 4\n"));
    assert_eq!(rt;
        list(&file, &mut [None; 26], &mut [], &mut text),
        refused(10, Refusal::SetMembers)
    );
    let listed = list(&WORKED, &mut [None; 26], &mut [], &mut text);
    assert_eq!(rt;
        listed,
        Listing {
            len: 22,
            stop: None
        }
    );
}

const MOVED: Vote = Vote {
    sets: &[8, 8, 8, 4, 8],
    ..LINED
};

const SEATS: [Opened; 5] = [
    (1, &[500; 4], &[8, 8, 8, 4, 8], b"refused 7 round 2\n", 7),
    (1, &[500; 4], &[8, 1 << 4], b"refused 6 round 0\n", 6), // also 7
    (1, &[500; 4], &[8, 8, 0b1100], b"refused 6 round 1\n", 6), // also 7
    // 1,000 rounds are the most
    (0, &[500], &[0; 1001], b"run 1 0 1000\n0 500\n", 0),
    (0, &[500], &[0; 1002], b"refused 11 round 1000\n", 11),
];

// what is refused first counts
const FORGED_BEFORE: [Lined; 1] = [(&[(1, [0, 0, 0, 1], 500)], b"refused 10 round 1\n", 10)];

#[test]
fn a_refused_seat_is_told_with_its_round(rt: HostRuntime) {
    come_to(&rt, LINED, &SEATS);
    lines_come_to(&rt, MOVED, &FORGED_BEFORE);
}

// Whoever prints a stop prints the words of its refusal, after its round if it has one.
#[test]
fn a_stop_is_told_in_words(rt: HostRuntime) -> Result<(), Fail> {
    let move_refused = Stop {
        refusal: Refusal::ForbiddenMove,
        round: Some(3),
    };
    let words = move_refused.to_string(rt.alloc())?;
    assert_eq!(rt;
        words.as_str(),
        "round 3: the model does not allow the move"
    );
    let file_refused = Stop::from(Refusal::HeaderCode);
    let words = file_refused.to_string(rt.alloc())?;
    assert_eq!(rt;
        words.as_str(),
        "the header has an unknown code for the kind, the model or stamps, or its byte 5 is not 0"
    );
    Ok(())
}

// In round 0 controller 0 is honest, 1 uniform and 2 free.
const FORGED: Vote = Vote {
    sets: &[2, 4, 4, 4],
    ..OPENED
};

const FORGEABLE: &[Line] = &[
    (0, [1, 0, 0, 1], 500),
    (0, [2, 5, 0, 0], 0),
    (2, [2, 5, 5, 1], 500),
];

const LISTED: &[u8] = b"run 6 1 3\n0 none\n1 none\n2 upset\n3 none\n4 none\n5 none\n";

// in round 1 controller 1 is honest again
const HONEST_AGAIN: &[Line] = &[(0, [1, 0, 0, 1], 500), (1, [1, 0, 0, 1], 500)];

// the message of round 2 has six columns
const SEVENTH: &[Line] = &[(1, [2, 0, 0, 1], 500), (2, [2, 0, 6, 1], 500)];

const FORGERIES: [Lined; 9] = [
    (FORGEABLE, LISTED, 0),
    (&[(0, [6, 0, 0, 1], 500)], b"refused 9 round 0\n", 9),
    (&[(0, [255, 0, 0, 1], 500)], b"refused 9 round 0\n", 9),
    (&[(0, [0, 6, 0, 1], 500)], b"refused 9 round 0\n", 9), // also 10
    (&[(0, [2, 0, 1, 1], 500)], b"refused 9 round 0\n", 9),
    (&[(0, [0, 0, 0, 1], 500)], b"refused 10 round 0\n", 10),
    (&[(0, [1, 1, 0, 1], 500)], b"refused 10 round 0\n", 10),
    (HONEST_AGAIN, b"refused 10 round 1\n", 10),
    (SEVENTH, b"refused 9 round 2\n", 9),
];

// under aware controller 1 is silent
const SILENT: [Lined; 1] = [(&[(0, [1, 0, 0, 0], 0)], b"refused 10 round 0\n", 10)];

#[test]
fn a_refused_forgery_is_told_with_its_round(rt: HostRuntime) {
    lines_come_to(&rt, FORGED, &FORGERIES);
    let model = Standard::Aware;
    lines_come_to(&rt, Vote { model, ..FORGED }, &SILENT);
}

#[test]
fn without_rounds_the_initial_set_is_upset(rt: HostRuntime) {
    let vote = Vote {
        model: Standard::Unaware,
        stamps: false,
        t: 3,
        proposals: &[500; 16],
        sets: &[0b1000_0010_0000_0001],
        lines: &[],
    };
    let expected =
        b"run 16 3 0\n0 upset\n1 none\n2 none\n3 none\n4 none\n5 none\n6 none\n7 none\n8 none\n\
9 upset\n10 none\n11 none\n12 none\n13 none\n14 none\n15 upset\n";
    assert!(rt; comes_to(&vote, expected, 0));
}

const MODELS: [Standard; 5] = [
    Standard::Aware,
    Standard::Unaware,
    Standard::Buffered,
    Standard::Carried,
    Standard::Fixed,
];

const ONE: [Opened; 2] = [
    (0, &[500], &[0; 4], b"run 1 0 3\n0 500\n", 0),
    (0, &[500], &[0; 3], b"run 1 0 2\n0 none\n", 0),
];

#[test]
fn a_block_of_one_decides_in_three_rounds(rt: HostRuntime) {
    for model in &MODELS {
        for stamps in [false, true] {
            let vote = Vote {
                model: *model,
                stamps,
                ..LINED
            };
            come_to(&rt, vote, &ONE);
        }
    }
}

#[test]
fn a_sheet_is_listed_by_its_shares(rt: HostRuntime) {
    let file = [
        1, 0, 0, 1, 0, 0, 3, 0, 0, 0, 16, 0, 24, 0, 32, 0, // the header
        0x90, 1, 0x2c, 1, 200, 0, 100, 0, // the proposal
        0, 0, 0, 0, 0, 0, 0, 0, // the sets
    ];
    let mut setpoints = [OLD; 8];
    let mut sheets = [old_sheet(); 10];
    let mut text = [7; 512];
    let listed = list(&file, &mut setpoints, &mut sheets, &mut text);
    assert_eq!(rt;
        listed,
        Listing {
            len: 28,
            stop: None
        }
    );
    assert!(rt; text.starts_with(b"run 1 0 3\n0 400 300 200 100\n"));
    assert_eq!(rt; setpoints, [OLD; 8]);
    assert_eq!(rt; [sheets[8], sheets[9]], [old_sheet(); 2]);
    let small = list(&file, &mut setpoints, &mut sheets[..7], &mut text);
    assert_eq!(rt; small, refused(10, Refusal::StoreSize));
}

// A value of eight bytes in the one line, whose sender is honest.
#[test]
fn a_sheet_line_is_checked_whole(rt: HostRuntime) {
    let mut file = [
        1, 0, 0, 1, 0, 0, 1, 0, 1, 0, 16, 0, 24, 0, 28, 0, // the header
        0x90, 1, 0x2c, 1, 200, 0, 100, 0, // the proposal
        0, 0, 0, 0, // the sets
        0, 0, 0, 0, 0, 0, // the line
        0, 0, 0, 0, 0, 0, 0, 0, // and its value
    ];
    assert!(rt; lists(&file, b"refused 10 round 0\n", 10));
    file[41] = 4;
    assert!(rt; lists(&file, b"refused 25\n", 25));
    file[33] = 1;
    assert!(rt; lists(&file, b"refused 24\n", 24));
    file[41] = 3;
    assert!(rt; lists(&file, b"refused 10 round 0\n", 10));
    file[34] = 233;
    assert!(rt; lists(&file, b"refused 24\n", 24));
}

#[test]
fn cells_that_no_run_needs_stay(rt: HostRuntime) {
    // none of these opens a run
    for (at, byte, number) in &[(0, 2, 22), (10, 17, 23), (17, 4, 24), (4, 2, 2), (20, 4, 6)] {
        assert!(rt;
            leaves_cells(&altered(*at, *byte), *number),
            "{byte} at {at}"
        );
    }
    let mut setpoints = [OLD; 30];
    let mut sheets = [old_sheet(); 30];
    let listing = list(&WORKED, &mut setpoints, &mut sheets, &mut [7; 512]);
    assert_eq!(rt; listing.number(), 0);
    assert_eq!(rt; &setpoints[26..], [OLD; 4].as_slice());
    assert_eq!(rt; sheets, [old_sheet(); 30]);
}

// Each hears 500, 500, 600 and what 3 tells it; 500 wins with a third cell. Only if two hold it after the first round
// does the first phase end with 500; else it ends with the fallback.
const TOLD: Vote = Vote {
    proposals: &[500, 500, 600, 700],
    sets: &[8; 13],
    ..LINED
};

const FALLBACK: &[u8] = b"run 4 1 12\n0 400\n1 400\n2 400\n3 upset\n";

const HIGH: &[u8] = b"run 4 1 12\n0 500\n1 500\n2 500\n3 upset\n";

const EMPTIED: &[Line] = &[
    (0, [3, 0, 0, 1], 500),
    (0, [3, 1, 0, 1], 500),
    (0, [3, 1, 0, 0], 0),
];

const REPLACED: &[Line] = &[
    (0, [3, 1, 0, 1], 600),
    (0, [3, 0, 0, 1], 500),
    (0, [3, 1, 0, 1], 500),
];

const LAST_FORGED: [Lined; 4] = [
    (&[], FALLBACK, 0),
    (&[(0, [3, 0, 0, 1], 500), (0, [3, 1, 0, 1], 500)], HIGH, 0),
    (EMPTIED, FALLBACK, 0),
    (REPLACED, HIGH, 0),
];

#[test]
fn what_is_forged_last_counts(rt: HostRuntime) {
    lines_come_to(&rt, TOLD, &LAST_FORGED);
}

// Each hears 500, 600 and what 2 tells, which is the same for all.
const STAMPED: Vote = Vote {
    stamps: true,
    proposals: &[500, 600, 700],
    sets: &[4; 10],
    ..LINED
};

const TOLD_ALL: [Lined; 2] = [
    (
        &[(0, [2, 0, 0, 1], 600)],
        b"run 3 1 9\n0 600\n1 600\n2 upset\n",
        0,
    ),
    (&[], b"run 3 1 9\n0 400\n1 400\n2 upset\n", 0),
];

#[test]
fn a_stamped_forgery_reaches_all(rt: HostRuntime) {
    lines_come_to(&rt, STAMPED, &TOLD_ALL);
}

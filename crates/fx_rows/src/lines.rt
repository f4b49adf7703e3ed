//! Lines of a journal that are read and printed again, and lines that are refused.

use fx_base::{Bytes, NoMemory};
use fx_trace::{ItemFault, ReadItem, print_item, read_item};
use std::alloc::Global;
use std::test::Fail;

// A line of each kind, the number of its fields of one word, and whether a list or a message follows them.
const LINES: [(&str, u8, bool); 44] = [
    ("kill 0", 1, false),
    ("kill 255", 1, false),
    ("join 0 0 start", 3, false),
    ("join 255 4294967295 spare", 3, false),
    ("join 1 2 error", 3, false),
    ("join 1 2 final", 3, false),
    ("repaired 0 0 0 full :", 4, true),
    (
        "repaired 255 4294967295 255 spares-depleted : 0=0 255=255",
        4,
        true,
    ),
    ("callback 0 1 a", 3, false),
    ("callback 0 1 z234567890123456", 3, false),
    ("init 0 0 initial 0 0 0 full", 7, false),
    (
        "init 255 4294967295 survivor 255 255 255 spares-depleted",
        7,
        false,
    ),
    ("init 1 2 recovered 3 4 5 full", 7, false),
    ("print 0 1 a :", 3, true),
    (
        "print 0 1 ranks : 0 -9223372036854775808 9223372036854775807",
        3,
        true,
    ),
    ("attach 0 1 0 255", 4, false),
    ("store 0 1 0 7 :", 4, true),
    ("store 0 1 0 7 : 0=5 4294967295=-1", 4, true),
    ("commit 0 1 255 -9223372036854775808", 4, false),
    ("restore 0 1 0 7 9223372036854775807 : 1=-1 2=0", 5, true),
    ("refused 0 1 group 0 0 0 NotCreated", 7, false),
    ("refused 0 1 member 0 7 0 NotAttached", 7, false),
    ("refused 0 1 restore 0 7 -1 NoStamp", 7, false),
    ("refused 0 1 store 0 7 0 NotStored", 7, false),
    ("refused 0 1 commit 0 0 0 Full", 7, false),
    ("refused 0 1 commitbarrier 0 0 0 AlreadyCreated", 7, false),
    ("refused 0 1 drop 0 0 9 NoStamp", 7, false),
    ("barrier 0 1 4294967295", 3, false),
    ("reduce 0 1 2 sum -5", 5, false),
    ("reduce 0 1 2 min 0", 5, false),
    ("reduce 0 1 2 max 5", 5, false),
    ("agree 0 1 2 -1", 4, false),
    ("shift 0 1 2 255 : 1 2", 4, true),
    ("group 0 1 2 7", 4, false),
    ("close 0 1 2 7", 4, false),
    ("drop 0 1 2 7 -3", 5, false),
    ("passed 0 1 2", 3, false),
    ("value 0 1 2 -7", 4, false),
    ("shifted 0 1 2 : 7 -7", 3, true),
    ("created 0 1 2 7 fresh :", 5, true),
    ("closed 0 1 2 7 5", 5, false),
    ("failed 0 1 2 15", 4, false),
    ("told 15 0", 2, false),
    ("send 0 1 tell 2 3 known 1 7 0=0,1=5 : 5 6", 2, true),
];

// Lines that are read, too.
const MESSAGES: [&str; 12] = [
    "send 0 1 join 1 start",
    "send 0 1 jest 1 0 start",
    "send 0 1 jest 1 255 start,spare,error,final,lost",
    "send 0 1 part 1 2 :",
    "deliver 0 1 part 1 2 : -1 1",
    "deliver 0 1 vote 1 2 yes=-9",
    "deliver 0 1 est 1 2 3 yes,yes=4,fresh,kept,gone,nolost=0,noleft=255,lost,left",
    "send 0 1 share 1 2 : -9=00ff 4=",
    "send 0 1 tell 1 2 unknown",
    "send 0 1 help 1 2 :",
    "send 0 1 give 1 2 : 5=0123456789abcdef",
    "created 0 1 2 7 lost : -1 5 5",
];

// Lines that are refused, with what is first wrong in each.
const REFUSED: [(&str, ItemFault); 24] = [
    ("", ItemFault::NoSuchKind),
    (" kill 0", ItemFault::NoSuchKind),
    ("Kill 0", ItemFault::NoSuchKind),
    ("kill  0", ItemFault::BadField(1)),
    ("kill 256", ItemFault::BadField(1)),
    ("kill -1", ItemFault::BadField(1)),
    ("kill 00", ItemFault::BadField(1)),
    ("kill 0 ", ItemFault::TrailingText),
    ("kill 256 1", ItemFault::BadField(1)),
    ("join 0 4294967296 start", ItemFault::BadField(2)),
    ("join 0 1 lost", ItemFault::BadField(3)),
    ("callback 0 1 rank", ItemFault::BadField(3)),
    ("callback 0 1 a2345678901234567", ItemFault::BadField(3)),
    ("commit 0 1 0 9223372036854775808", ItemFault::BadField(4)),
    ("store 0 1 0 7 : 1=1 1=2", ItemFault::BadField(5)),
    ("store 0 1 0 7 : 2=1 1=2", ItemFault::BadField(5)),
    ("send 0 1 est 1 2 3 ", ItemFault::BadField(3)),
    ("send 0 1 est 1 2 3 yes,", ItemFault::BadField(3)),
    ("send 0 1 share 1 2 : 1=0A", ItemFault::BadField(3)),
    ("send 0 1 share 1 2 : 1=0", ItemFault::BadField(3)),
    ("send 0 1 share 1 2 : 2=00 1=00", ItemFault::BadField(3)),
    ("send 0 1 vote 1 2 yes extra", ItemFault::BadField(3)),
    ("send 0 1 tell 1 2 known 1 7  : 5", ItemFault::BadField(3)),
    ("repaired 0 1 1 full 0=0", ItemFault::BadField(5)),
];

fn printed(alloc: Global, line: &str) -> Result<Bytes, ReadItem> {
    let item = read_item(alloc, line.as_bytes())?;
    let mut out = Bytes::new(alloc);
    print_item(&item, &mut out)?;
    Ok(out)
}

// The line with another word in the place of word `at`, and without the words behind it where it is cut.
fn changed(alloc: Global, line: &str, at: u8, word: &str, cut: bool) -> Result<Bytes, NoMemory> {
    let mut out = Bytes::new(alloc);
    let mut place = 0u8;
    for part in line.as_bytes().split(|byte| *byte == b' ') {
        if place > at && cut {
            break;
        }
        if place > 0 {
            out.push(b' ')?;
        }
        if place == at {
            out.append(word.as_bytes())?;
        } else {
            out.append(part)?;
        }
        place = place.saturating_add(1);
    }
    Ok(out)
}

fn fault_of(alloc: Global, line: &[u8]) -> Option<ReadItem> {
    read_item(alloc, line).err()
}

#[test]
fn lines_are_read_and_printed_again(rt: HostRuntime) {
    let alloc = rt.alloc();
    for (line, _, _) in LINES {
        let printed = printed(alloc, line);
        assert!(rt;
            matches!(&printed, Ok(out) if out.as_slice() == line.as_bytes()),
            "at {line}"
        );
    }
    for line in MESSAGES {
        let printed = printed(alloc, line);
        assert!(rt;
            matches!(&printed, Ok(out) if out.as_slice() == line.as_bytes()),
            "at {line}"
        );
    }
}

#[test]
fn lines_are_refused_for_what_is_first_wrong(rt: HostRuntime) {
    for (line, fault) in REFUSED {
        assert_eq!(rt;
            fault_of(rt.alloc(), line.as_bytes()),
            Some(ReadItem::Refused(fault)),
            "at {line}"
        );
    }
}

// `-x` is no number, no name and no other word. Each word is changed to it, and the line is cut behind it.
#[test]
fn each_wrong_word_makes_its_field_wrong(rt: HostRuntime) -> Result<(), Fail> {
    let alloc = rt.alloc();
    for (line, fields, followed) in LINES {
        for at in 0..fields {
            for cut in [false, true] {
                let text = changed(alloc, line, at + 1, "-x", cut)?;
                let wanted = Some(ReadItem::Refused(ItemFault::BadField(at + 1)));
                assert_eq!(rt; fault_of(alloc, text.as_slice()), wanted, "at {line}");
            }
        }
        let text = changed(alloc, line, 0, "-x", false)?;
        let wanted = Some(ReadItem::Refused(ItemFault::NoSuchKind));
        assert_eq!(rt; fault_of(alloc, text.as_slice()), wanted, "at {line}");
        if followed {
            let next = fields.saturating_add(1);
            let text = changed(alloc, line, next, "-x", true)?;
            let wanted = Some(ReadItem::Refused(ItemFault::BadField(next)));
            assert_eq!(rt; fault_of(alloc, text.as_slice()), wanted, "at {line}");
        }
    }
    Ok(())
}

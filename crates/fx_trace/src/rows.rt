//! The lines of items and messages, as tables of rows. A row is its number, the kind, its word, the fields of one word in their order,
//! each with its shape, and what ends the line, if anything.

/// The table of items.
macro_rules! item_rows {
    ($arms:ident! { $($given:tt)* }) => {
        $arms! { { $($given)* }
            0 Kill b"kill" (p: Process);
            1 Join b"join" (p: Process, e: Epoch, kind: JoinKind);
            2 Repaired b"repaired" (p: Process, e: Epoch, size: Count, warn: Warning) list: Seats;
            3 Callback b"callback" (p: Process, e: Epoch, name: Name);
            4 Init b"init" (p: Process, e: Epoch, role: Role, id: Identity, rank: Count, size: Count, warn: Warning);
            5 Print b"print" (p: Process, e: Epoch, name: Name) list: Numbers;
            6 Attach b"attach" (p: Process, e: Epoch, g: Group, m: Member);
            7 Store b"store" (p: Process, e: Epoch, g: Group, m: Member) list: Elements;
            8 Commit b"commit" (p: Process, e: Epoch, g: Group, t: Stamp);
            9 Restore b"restore" (p: Process, e: Epoch, g: Group, m: Member, t: Stamp) list: Elements;
            10 Refused b"refused" (p: Process, e: Epoch, statement: Statement, g: Group, m: Member, t: Stamp, answer: Answer);
            11 Barrier b"barrier" (p: Process, e: Epoch, k: Call);
            12 Reduce b"reduce" (p: Process, e: Epoch, k: Call, op: Op, n: Number);
            13 Agree b"agree" (p: Process, e: Epoch, k: Call, n: Number);
            14 Shift b"shift" (p: Process, e: Epoch, k: Call, d: Count) list: Numbers;
            15 Group b"group" (p: Process, e: Epoch, k: Call, g: Group);
            16 Close b"close" (p: Process, e: Epoch, k: Call, g: Group);
            17 Drop b"drop" (p: Process, e: Epoch, k: Call, g: Group, t: Stamp);
            18 Passed b"passed" (p: Process, e: Epoch, k: Call);
            19 Value b"value" (p: Process, e: Epoch, k: Call, n: Number);
            20 Shifted b"shifted" (p: Process, e: Epoch, k: Call) list: Numbers;
            21 Created b"created" (p: Process, e: Epoch, k: Call, g: Group, how: How) list: Stamps;
            22 Closed b"closed" (p: Process, e: Epoch, k: Call, g: Group, t: Stamp);
            23 Failed b"failed" (p: Process, e: Epoch, k: Call, x: Process);
            24 Revoked b"revoked" (p: Process, e: Epoch, k: Call, x: Process);
            25 Ended b"ended" (p: Process);
            26 Send b"send" (p: Process, q: Process) message: Message;
            27 Deliver b"deliver" (p: Process, q: Process) message: Message;
            28 Told b"told" (p: Process, q: Process);
        }
    };
}

/// The table of messages.
macro_rules! message_rows {
    ($arms:ident! { $($given:tt)* }) => {
        $arms! { { $($given)* }
            0 Join b"join" (e: Epoch, kind: JoinKind);
            1 Jest b"jest" (e: Epoch, r: Count, slots: Slots);
            2 Part b"part" (e: Epoch, k: Call) elems: Values;
            3 Vote b"vote" (e: Epoch, k: Call, slot: Slot);
            4 Est b"est" (e: Epoch, k: Call, r: Count, slots: Slots);
            5 Share b"share" (e: Epoch, k: Call) shares: Shares;
            6 Tell b"tell" (e: Epoch, k: Call) known: Known;
            7 Help b"help" (e: Epoch, k: Call) shares: Shares;
            8 Give b"give" (e: Epoch, k: Call) shares: Shares;
        }
    };
}

pub(crate) use item_rows;
pub(crate) use message_rows;

// Each move of plain fusion and of sequences over two element words.
use cd_elem::ElemWord;
use cd_fuse::{Follow, Fuse};
use std::test::Fail;
use test_callers::{Given, moves_of};

/// Two words, what comes to them, whether the end does, and each of their moves.
#[derive(Clone, Copy)]
struct Row<'a> {
    words: (ElemWord, ElemWord),
    given: &'a str,
    size: usize,
    ends: bool,
    moves: &'a str,
}

#[test]
fn fusions(rt: HostRuntime) -> Result<(), Fail> {
    let rows = [
        // the upstream begins when it is asked; what the downstream has not read is dropped, and what the suspended
        // upstream has not read is given back
        Row {
            words: (ElemWord::TakeE(3), ElemWord::TakeE(2)),
            given: "abcd",
            size: 4,
            ends: true,
            moves: "
down start = need
up start = need
= need
up abcd = emit abc
down abc = emit ab
= emit ab
down next = done unit, back c
= done unit, back d
",
        },
        // a downstream that asks for nothing ends before the upstream has begun
        Row {
            words: (ElemWord::TakeE(3), ElemWord::TakeE(0)),
            given: "abcd",
            size: 4,
            ends: true,
            moves: "
down start = done unit, back nothing
= done unit, back nothing
",
        },
        // the upstream ends first, and the downstream is told so once; what the upstream gave back is kept
        Row {
            words: (ElemWord::TakeE(2), ElemWord::LengthE),
            given: "abcd",
            size: 4,
            ends: true,
            moves: "
down start = need
up start = need
= need
up abcd = emit ab
down ab = need
up next = done unit, back cd
down end = done 2, back nothing
= done 2, back cd
",
        },
        // the end of the whole is told to the upstream
        Row {
            words: (ElemWord::DropE(2), ElemWord::HeadE),
            given: "a",
            size: 1,
            ends: true,
            moves: "
down start = need
up start = need
= need
up a = need
= need
up end = done unit, back nothing
down end = done none, back nothing
= done none, back nothing
",
        },
        // no step follows
        Row {
            words: (ElemWord::PassE, ElemWord::LengthE),
            given: "a",
            size: 1,
            ends: false,
            moves: "
down start = need
up start = need
= need
up a = emit a
down a = need
up next = need
= need
back nothing
",
        },
    ];
    for row in rows {
        let given = Given::new(row.given, row.size, row.ends);
        let moves = moves_of(rt.alloc(), &mut Fuse::new(), row.words, given)?;
        assert_eq!(rt; moves.as_str(), row.moves);
    }
    Ok(())
}

#[test]
fn sequences(rt: HostRuntime) -> Result<(), Fail> {
    let rows = [
        // the second part begins when the first has ended, and reads what that left
        Row {
            words: (ElemWord::TakeE(2), ElemWord::TakeE(2)),
            given: "abcde",
            size: 3,
            ends: true,
            moves: "
up start = need
= need
up abc = emit ab
= emit ab
up next = done unit, back c
down start = need
down c = emit c
= emit c
down next = need
= need
down de = emit d
= emit d
down next = done unit, back e
= done unit, back e
",
        },
        // what the first part left is given back where the second reads nothing
        Row {
            words: (ElemWord::HeadE, ElemWord::TakeE(0)),
            given: "ab",
            size: 2,
            ends: true,
            moves: "
up start = need
= need
up ab = done a, back b
down start = done unit, back nothing
= done unit, back b
",
        },
        // the end that the first part was told is told to the second
        Row {
            words: (ElemWord::PassE, ElemWord::LengthE),
            given: "a",
            size: 1,
            ends: true,
            moves: "
up start = need
= need
up a = emit a
= emit a
up next = need
= need
up end = done unit, back nothing
down start = need
down end = done 0, back nothing
= done 0, back nothing
",
        },
        // and the second alone, once the first has ended
        Row {
            words: (ElemWord::HeadE, ElemWord::LengthE),
            given: "ab",
            size: 1,
            ends: true,
            moves: "
up start = need
= need
up a = done a, back nothing
down start = need
= need
down b = need
= need
down end = done 1, back nothing
= done 1, back nothing
",
        },
        // no step follows
        Row {
            words: (ElemWord::HeadE, ElemWord::LengthE),
            given: "ab",
            size: 2,
            ends: false,
            moves: "
up start = need
= need
up ab = done a, back b
down start = need
down b = need
= need
back nothing
",
        },
    ];
    for row in rows {
        let given = Given::new(row.given, row.size, row.ends);
        let moves = moves_of(rt.alloc(), &mut Follow::new(), row.words, given)?;
        assert_eq!(rt; moves.as_str(), row.moves);
    }
    Ok(())
}

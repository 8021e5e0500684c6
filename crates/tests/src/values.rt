// The calls of the lists that take memory, and what no clause says of those that lend.
use cd_elem::{
    Boxed, Chunk, Items, Join, Literal, Name, NoMemory, Pipe, PipeList, Roomy, Script, SinkWord,
    Sort, SourceWord, Stmt, StmtList, Value, ValueList, Word,
};
use std::alloc::Global;

#[test]
fn lists(rt: HostRuntime) {
    let alloc = rt.alloc();
    let mut items: Items<u32> = Items::new(alloc);
    assert!(rt; items.is_empty());
    for number in [5, 6, 7] {
        with(&mut items, number).expect(&rt, "memory");
    }
    if let Some(middle) = items.get_mut(1) {
        *middle = 9;
    }
    assert!(rt; items.get(1) == Some(&9) && items.get(3) == None);
    assert!(rt; items.pop() == Some(7));
    items.extend_from_slice(&[1, 2]).expect(&rt, "memory");
    assert!(rt; items.as_slice() == [5, 9, 1, 2].as_slice());
    let copy = Items::from_slice(alloc, items.as_slice()).expect(&rt, "memory");
    assert!(rt; copy.into_vec().as_slice() == [5, 9, 1, 2].as_slice());
}

#[test]
fn reserved_room(rt: HostRuntime) {
    let mut roomy: Roomy<u32> = Roomy::new(rt.alloc());
    roomy.reserve(2).expect(&rt, "memory");
    for number in [5, 6, 7] {
        roomy.push(number).expect(&rt, "memory");
    }
    if let Some(first) = roomy.get_mut(0) {
        *first = 4;
    }
    assert!(rt; roomy.pop() == Some(7));
    assert!(rt; roomy.len() == 2);
    assert!(rt; roomy.get(1) == Some(&6));
    assert!(rt; roomy.as_slice() == [4, 6].as_slice());
}

#[test]
fn literals(rt: HostRuntime) {
    for text in ["", "a.txt", "é"] {
        let literal = Literal::new(rt.alloc(), text).expect(&rt, "memory");
        assert!(rt; literal.as_str() == text);
    }
}

#[test]
fn names(rt: HostRuntime) {
    let name = Name::new(rt.alloc(), "kept1").expect(&rt, "memory");
    assert!(rt; name.as_str() == "kept1");
}

fn boxed<T: Drop>(alloc: Global, item: T) -> Result<Boxed<T>, NoMemory> {
    match Boxed::new(alloc, item) {
        Ok(boxed) => Ok(boxed),
        Err(_) => Err(NoMemory),
    }
}

fn with<T: Drop>(list: &mut Items<T>, item: T) -> Result<(), NoMemory> {
    match list.push(item) {
        Ok(()) => Ok(()),
        Err(_) => Err(NoMemory),
    }
}

/// A pair of a number and nothing.
fn pair_of(alloc: Global) -> Result<Value, NoMemory> {
    let nothing = boxed(alloc, Value::Maybe(None))?;
    match boxed(alloc, Value::Num(3)) {
        Ok(number) => Ok(Value::Pair(number, nothing)),
        Err(NoMemory) => {
            drop(nothing);
            Err(NoMemory)
        }
    }
}

/// Whether this is that pair.
fn is_pair(value: &Value) -> bool {
    match value {
        Value::Pair(first, second) => {
            matches!(first.get(), Value::Num(3)) && matches!(second.get(), Value::Maybe(None))
        }
        _ => false,
    }
}

#[test]
fn values(rt: HostRuntime) {
    let alloc = rt.alloc();
    let mut list: ValueList = Items::new(alloc);
    let pair = pair_of(alloc).expect(&rt, "memory");
    with(&mut list, pair).expect(&rt, "memory");
    let bytes = Items::from_slice(alloc, b"ab").expect(&rt, "memory");
    with(&mut list, Value::BytesV(bytes)).expect(&rt, "memory");
    let last = list.pop().expect(&rt, "the last value");
    assert!(rt; matches!(&last, Value::BytesV(bytes) if bytes.as_slice() == b"ab".as_slice()));
    let first = list.pop().expect(&rt, "the first value");
    assert!(rt; is_pair(&first));
}

#[test]
fn unboxed(rt: HostRuntime) {
    let counted = boxed(rt.alloc(), Value::Num(3)).expect(&rt, "memory");
    assert!(rt; matches!(counted.into_inner(), Value::Num(3)));
    let nothing = boxed(rt.alloc(), Value::Maybe(None)).expect(&rt, "memory");
    assert!(rt; matches!(nothing.into_inner(), Value::Maybe(None)));
}

/// `sourceFile "a" | exactlyE 5 (stdout)`, as a tree.
fn chain_of(alloc: Global) -> Result<Pipe, NoMemory> {
    let mut members: PipeList = Items::new(alloc);
    let source = SourceWord::SourceFile(Literal::new(alloc, "a")?);
    with(&mut members, Pipe::Word(Word::Source(source)))?;
    let inner = boxed(alloc, Pipe::Word(Word::Sink(SinkWord::Stdout)))?;
    with(&mut members, Pipe::ExactlyE(5, inner))?;
    Ok(Pipe::Chain(Join::Plain, members))
}

/// Whether its second member is a section of five elements.
fn is_chain(pipe: &Pipe) -> bool {
    match pipe {
        Pipe::Chain(Join::Plain, members) => {
            members.len() == 2
                && match members.get(1) {
                    Some(Pipe::ExactlyE(5, body)) => {
                        matches!(body.get(), Pipe::Word(Word::Sink(SinkWord::Stdout)))
                    }
                    _ => false,
                }
        }
        _ => false,
    }
}

#[test]
fn scripts(rt: HostRuntime) {
    let alloc = rt.alloc();
    let chain = chain_of(alloc).expect(&rt, "memory");
    let mut statements: StmtList = Items::new(alloc);
    with(&mut statements, Stmt::Run(chain)).expect(&rt, "memory");
    let script = Script::new(statements);
    assert!(rt; matches!(script.statements().get(0), Some(Stmt::Run(pipe)) if is_chain(pipe)));
}

#[test]
fn chunks(rt: HostRuntime) {
    let alloc = rt.alloc();
    let mut bytes = Chunk::bytes(alloc, b"abcde").expect(&rt, "memory");
    let front = bytes.cut(alloc, 2).expect(&rt, "memory");
    assert!(rt; front.as_bytes() == Some(b"ab".as_slice()));
    bytes.skip(1);
    assert!(rt; bytes.sort() == Sort::Bytes);
    assert!(rt; bytes.as_bytes() == Some(b"de".as_slice()) && bytes.as_chars() == None);
    assert!(rt; bytes.get(1) == Some(101) && bytes.get(2) == None);
}

#[test]
fn pieces(rt: HostRuntime) {
    let mut piece = Chunk::block(rt.alloc(), b"ab").expect(&rt, "memory");
    piece.skip(2);
    assert!(rt; piece.is_empty());
    let text = Chunk::text(rt.alloc(), &['a', 'b']).expect(&rt, "memory");
    assert!(rt; text.as_chars() == Some(['a', 'b'].as_slice()));
    assert!(rt; text.len() == 2);
    let characters = Chunk::chars(rt.alloc(), &['é']).expect(&rt, "memory");
    assert!(rt; characters.get(0) == Some(233));
}

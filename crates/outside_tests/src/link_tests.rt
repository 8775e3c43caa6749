// Links in memory: the calls that are to fail, and bytes that go from one thread to another.
ghost use Rattle.std.specs.Prelude.{◌≡◌, ◌<◌, [], ◌∷◌, length, false, IfOk};
ghost use Rattle.outside.specs.MemoryLinks.{IsLink, no_links};

use crate::forms_tests::numbers;
use flow_defs::Bytes;
use outside::{
    Failed, LinkIn, LinkOut, Links, MemoryIn, MemoryLinks, MemoryOut, PairFault, Pause, Wire,
};
use std::alloc::{AllocError, Global};
use std::sync::Wait;
use std::test::Fail;
use std::thread::{Threads, join};

// Links in memory, of which these pairs, reads and writes fail.
fn links_with(
    alloc: Global,
    pairs: &[u64],
    reads: &[u64],
    writes: &[u64],
) -> Result<MemoryLinks, AllocError>
    ensures { IfOk result (λ links. links ≡ no_links pairs.now reads.now writes.now) }
{
    let pairs = numbers(alloc, pairs)?;
    let reads = numbers(alloc, reads)?;
    let writes = numbers(alloc, writes)?;
    Ok(MemoryLinks::new(alloc, pairs, reads, writes))
}

// The ends of two new links, of which these reads and writes fail.
fn new_wire(
    alloc: Global,
    reads: &[u64],
    writes: &[u64],
) -> Result<Wire<MemoryOut, MemoryIn>, PairFault>
    ensures data { IfOk result (λ wire. IsLink reads.now writes.now wire.data_out wire.data_in) }
    ensures control { IfOk result (λ wire. IsLink reads.now writes.now wire.control_out wire.control_in) }
    ensures one_cell { IfOk result (λ wire. wire.data_out.cell ≡ wire.data_in.cell) }
    ensures none_failed { IfOk result (λ wire. wire.control_out.faults ≡ 0) }
{
    let mut links = links_with(alloc, &[], reads, writes)?;
    links.pair(alloc)
}

// Writes, and answers beside that how many writes have failed then. That is what the end itself counts.
fn write<R: Wait>(
    rt: &R,
    out: &mut MemoryOut,
    bytes: &[u8],
    faults: u64,
) -> (Result<usize, Failed>, u64)
    requires some { 0 < length bytes.now }
    requires unfinished { out.old.finished ≡ false }
    requires faults { out.old.faults ≡ faults }
    ensures unfinished { out.new.finished ≡ false }
    ensures faults { out.new.faults ≡ result.1 }
{
    match out.write(rt, bytes) {
        Ok(count) => (Ok(count), faults),
        Err(fault) => (Err(fault), faults.saturating_add(1)),
    }
}

// Writes three times and finishes.
fn write_thrice<R: Wait>(rt: &R, out: &mut MemoryOut) -> ([Result<usize, Failed>; 3], u64)
    requires unfinished { out.old.finished ≡ false }
    requires no_fault { out.old.faults ≡ 0 }
    ensures faults { out.new.faults ≡ result.1 }
{
    let (first, faults) = write(rt, out, b"ab", 0);
    let (second, faults) = write(rt, out, b"cd", faults);
    let (third, faults) = write(rt, out, b"ef", faults);
    out.finish(rt);
    ([first, second, third], faults)
}

// What a read answers, and what stands in the room then.
type Got = (Result<usize, Failed>, [u8; 3]);

// Reads, and answers beside that how many reads have failed then. That is what the end itself counts.
fn read<R: Wait>(rt: &R, input: &mut MemoryIn, room: &mut [u8; 3], faults: u64) -> (Got, u64)
    requires faults { input.old.faults ≡ faults }
    ensures faults { input.new.faults ≡ result.1 }
{
    match input.read(rt, room) {
        Ok(count) => ((Ok(count), *room), faults),
        Err(fault) => ((Err(fault), *room), faults.saturating_add(1)),
    }
}

// Reads five times.
fn read_five<R: Wait>(rt: &R, input: &mut MemoryIn) -> ([Got; 5], u64)
    requires no_fault { input.old.faults ≡ 0 }
    ensures faults { input.new.faults ≡ result.1 }
{
    let mut room = [b'-'; 3];
    let (first, faults) = read(rt, input, &mut room, 0);
    let (second, faults) = read(rt, input, &mut room, faults);
    let (third, faults) = read(rt, input, &mut room, faults);
    let (fourth, faults) = read(rt, input, &mut room, faults);
    let (fifth, faults) = read(rt, input, &mut room, faults);
    ([first, second, third, fourth, fifth], faults)
}

const COUNTS: [Result<usize, Failed>; 3] = [Ok(2), Err(Failed), Ok(2)];

const GOT: [Got; 5] = [
    (Err(Failed), *b"---"),
    (Ok(3), *b"abe"),
    (Ok(1), *b"fbe"),
    (Ok(0), *b"fbe"),
    (Ok(0), *b"fbe"),
];

#[test]
fn ends_fail_at_the_calls_that_are_told(rt: HostRuntime) -> Result<(), Fail> {
    let alloc = rt.alloc();
    let mut wire = new_wire(alloc, &[1], &[2])?;
    let (counts, faults) = write_thrice(&rt, &mut wire.data_out);
    assert_eq!(rt; counts, COUNTS);
    assert_eq!(rt; faults, 1);
    let (got, faults) = read_five(&rt, &mut wire.data_in);
    assert_eq!(rt; got, GOT);
    assert_eq!(rt; faults, 1);
    Ok(())
}

// A write to a new wire of which the first fails, and then the wire is given back. Answers how many faults
// the links have counted then.
fn fail_and_give_back<R: Wait>(
    rt: &R,
    links: &mut MemoryLinks,
    mut wire: Wire<MemoryOut, MemoryIn>,
    faults: u64,
) -> u64
    requires lent { 0 < links.old.lent }
    requires data { IsLink [] (1 ∷ []) wire.data_out wire.data_in }
    requires control { IsLink [] (1 ∷ []) wire.control_out wire.control_in }
    requires faults { links.old.faults ≡ faults }
    ensures faults { links.new.faults ≡ result }
    ensures fails { (links.new.reads ≡ links.old.reads) × (links.new.writes ≡ links.old.writes) }
{
    match wire.data_out.write(rt, b"ab") {
        Ok(_) => {
            links.back(wire);
            faults
        }
        Err(_) => {
            links.back(wire);
            faults.saturating_add(1)
        }
    }
}

// Makes a wire and gives it back with a fault, or meets the fault that there is none. Answers beside that how
// many faults the links have counted then.
fn make_and_fail<R: Wait>(
    rt: &R,
    alloc: Global,
    links: &mut MemoryLinks,
    faults: u64,
) -> (Result<(), PairFault>, u64)
    requires fails { (links.old.reads ≡ []) × (links.old.writes ≡ 1 ∷ []) }
    requires faults { links.old.faults ≡ faults }
    ensures fails { (links.new.reads ≡ []) × (links.new.writes ≡ 1 ∷ []) }
    ensures faults { links.new.faults ≡ result.1 }
{
    match links.pair(alloc) {
        Ok(wire) => (Ok(()), fail_and_give_back(rt, links, wire, faults)),
        Err(PairFault::Failed) => (Err(PairFault::Failed), faults.saturating_add(1)),
        Err(PairFault::Memory) => (Err(PairFault::Memory), faults),
    }
}

fn make_thrice<R: Wait>(
    rt: &R,
    alloc: Global,
    links: &mut MemoryLinks,
) -> ([Result<(), PairFault>; 3], u64)
    requires new { links.old ≡ no_links (2 ∷ []) [] (1 ∷ []) }
    ensures faults { links.new.faults ≡ result.1 }
{
    let (first, faults) = make_and_fail(rt, alloc, links, 0);
    let (second, faults) = make_and_fail(rt, alloc, links, faults);
    let (third, faults) = make_and_fail(rt, alloc, links, faults);
    ([first, second, third], faults)
}

#[test]
fn links_fail_at_the_pairs_that_are_told(rt: HostRuntime) -> Result<(), Fail> {
    let alloc = rt.alloc();
    let mut links = links_with(alloc, &[2], &[], &[1])?;
    let (answers, faults) = make_thrice(&rt, alloc, &mut links);
    assert_eq!(rt; answers, [Ok(()), Err(PairFault::Failed), Ok(())]);
    assert_eq!(rt; faults, 3);
    assert_eq!(rt; links.wires().len(), 2);
    Ok(())
}

// Makes a wire, lets both its links be compared, and gives it back.
fn make_and_give_back<L: Links>(alloc: Global, links: &mut L) -> Result<(), PairFault>
    ensures { L.lent links.new ≡ L.lent links.old }
{
    let mut wire = links.pair(alloc)?;
    links.meet(&mut wire.data_out, &mut wire.data_in);
    links.meet(&mut wire.control_out, &mut wire.control_in);
    links.back(wire);
    Ok(())
}

#[test]
fn wires_are_made_and_given_back(rt: HostRuntime) -> Result<(), Fail> {
    let alloc = rt.alloc();
    let mut links = links_with(alloc, &[], &[], &[])?;
    assert!(rt; make_and_give_back(alloc, &mut links).is_ok());
    assert_eq!(rt; links.wires().len(), 1);
    Ok(())
}

// Sends these bytes in pieces, and finishes.
fn send<R: Wait>(rt: &R, out: MemoryOut, bytes: &[u8]) -> MemoryOut
    requires { out.finished ≡ false }
    ensures { result.cell ≡ out.cell }
{
    let mut out = out;
    let mut left = bytes;
    for _round in rt.forever() {
        if left.is_empty() {
            break;
        }
        let piece = &left[..left.len().min(700)];
        match out.write(rt, piece) {
            Ok(count) => left = &left[count..],
            Err(_) => break,
        }
    }
    out.finish(rt);
    out
}

// Adds what comes, up to the end.
fn receive<R: Wait>(rt: &R, input: MemoryIn, got: Bytes) -> (MemoryIn, Bytes)
    ensures { result.0.cell ≡ input.cell }
{
    let mut input = input;
    let mut got = got;
    let mut room = [0; 1000];
    for _round in rt.forever() {
        match input.read(rt, &mut room) {
            Ok(0) => break,
            Ok(count) => {
                if got.extend(&room[..count]).is_err() {
                    break;
                }
            }
            Err(_) => break,
        }
    }
    (input, got)
}

// Sends the bytes in one thread and receives them in another. Both ends see one history in the end.
fn send_and_receive<R: Threads + Wait + Sync>(
    rt: &R,
    links: &MemoryLinks,
    wire: Wire<MemoryOut, MemoryIn>,
    bytes: &[u8],
    got: Bytes,
) -> Bytes
    requires link { wire.data_out.cell ≡ wire.data_in.cell }
    requires unfinished { wire.data_out.finished ≡ false }
{
    let Wire {
        data_out,
        data_in,
        ..
    } = wire;
    let (mut data_out, (mut data_in, got)) = join(
        rt,
        || -> MemoryOut
            requires { data_out.finished ≡ false }
            ensures { result.cell ≡ data_out.cell }
        { send(rt, data_out, bytes) },
        || -> (MemoryIn, Bytes)
            ensures { result.0.cell ≡ data_in.cell }
        { receive(rt, data_in, got) },
    );
    links.meet(&mut data_out, &mut data_in);
    got
}

// What comes of these bytes in another thread, over links of which no call fails.
fn carried<R: Threads + Wait + Sync>(rt: &R, alloc: Global, bytes: &[u8]) -> Result<Bytes, Fail> {
    let links = links_with(alloc, &[], &[], &[])?;
    let wire = new_wire(alloc, &[], &[])?;
    Ok(send_and_receive(rt, &links, wire, bytes, Bytes::new(alloc)))
}

// So many bytes, which count up to 250 and begin again.
fn counting_bytes(alloc: Global, count: u32) -> Result<Bytes, AllocError> {
    let mut bytes = Bytes::new(alloc);
    for number in 0..count {
        bytes.push((number % 251) as u8)?;
    }
    Ok(bytes)
}

#[test]
fn bytes_go_in_order_from_thread_to_thread(rt: HostRuntime) -> Result<(), Fail> {
    let bytes = counting_bytes(rt.alloc(), 300_000)?;
    let got = carried(&rt, rt.alloc(), bytes.as_slice())?;
    assert!(rt; got.as_slice() == bytes.as_slice());
    Ok(())
}

#[test]
fn a_pause_ends(rt: HostRuntime) -> Result<(), Fail> {
    let mut pause = Pause::new();
    for _ in 0..50u32 {
        pause.wait(&rt);
    }
    pause.reset();
    pause.wait(&rt);
    Ok(())
}

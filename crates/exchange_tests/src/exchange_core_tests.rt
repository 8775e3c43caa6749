// Scripts beside what is replied to them, as it is printed.
ghost use Rattle.std.specs.Prelude.{ℕ, IfOk};
ghost use Rattle.std.specs.List.{All};
ghost use Rattle.script_text.specs.Scripts.{IsEvent};
ghost use Rattle.exchange_world.specs.Sound.{IsSound};

use exchange_core::{Exchange1, StartFault};
use exchange_world::laws::connections_stay_sound;
use flow_defs::ListOf;
use script_text::{Event, read_script, write_reply};
use std::alloc::{AllocError, Global};
use std::sync::Wait;
use std::test::Fail;

// A script, and what is replied.
static CASES: &[(&str, &str)] = &[
    // One channel runs out of credit and is topped up.
    (
        "open 1 64 40\npool\nemit 1 a\nemit 1 b\nemit 1 c\nsend\nsend\nsend\ndeliver\npool\ncredit 1\ncontrol\nsend\nsend\ndeliver\ndeliver\npoll 1\npoll 1\npoll 1\npool\ncredit 1\n",
        "pool 36 4\nqueued 1 1\nqueued 1 2\nqueued 1 3\nframe 1 0 data 5 2\nframe 1 1 data 5 1\nnothing\naccepted 1 0\npool 33 7\ncredit 1 3\ngranted 1 3\nframe 1 2 data 5 0\nnothing\naccepted 1 1\naccepted 1 2\ndata 1 5 1\nrecord 1 a\ndata 1 5 1\nrecord 1 b\ndata 1 5 1\nrecord 1 c\npool 36 4\nnone\n",
    ),
    // Of two channels, one isn't polled and the other goes on.
    (
        "open 2 64 40\nemit 1 a\nemit 1 b\nemit 1 c\nemit 2 d\nsend\nsend\nsend\nsend\nemit 2 e\nsend\ndeliver\ndeliver\ndeliver\ndeliver\npoll 2\npoll 2",
        "queued 1 1\nqueued 1 2\nqueued 1 3\nqueued 2 1\nframe 1 0 data 5 2\nframe 2 0 data 5 0\nframe 1 1 data 5 1\nnothing\nqueued 2 1\nframe 2 1 data 5 0\naccepted 1 0\naccepted 2 0\naccepted 1 1\naccepted 2 1\ndata 2 5 1\nrecord 2 d\ndata 2 5 1\nrecord 2 e\n",
    ),
    // A barrier blocks its channel until it is resumed. Of the third buffer the pool refuses the segment.
    (
        "open 1 64 4\nemit 1 a\nbarrier 1 1 inline\nbarrier 1 3 inline\nemit 1 b\nemit 1 c\nsend\nsend\nsend\ndeliver\ndeliver\npoll 1\nhold 1\nresume 1\npoll 1\nresume 1\nresume 1\ncontrol\nsend\nannounce\nannounce\n",
        "queued 1 1\nok\nrefused\nqueued 1 2\nfull\nframe 1 0 data 5 1\nframe 1 1 inline 8 1\nnothing\naccepted 1 0\naccepted 1 1\ndata 1 5 1\nrecord 1 a\nheld 1\nrefused\nbarrier 1 1 inline\nok\nrefused\nresumed 1\nframe 1 2 data 5 0\nnothing\nnothing\n",
    ),
    // Behind the end nothing is put. An empty text is a record.
    (
        "open 1 64 40\nemit 1 \nfinish 1\nemit 1 a\nbarrier 1 1 inline\nfinish 1\nsend\nsend\nsend\ndeliver\ndeliver\ndeliver\npoll 1\npoll 1\npoll 1\ncontrol\n",
        "queued 1 1\nok\nrefused\nrefused\nrefused\nframe 1 0 data 4 0\nframe 1 1 end 0 0\nnothing\naccepted 1 0\naccepted 1 1\nnone\ndata 1 4 1\nrecord 1 \nend 1\nempty 1\nnone\n",
    ),
    // A record fills two buffers and goes on in a third, and is read once the third has come.
    (
        "open 1 64 40\nfill 1 130\nsend\nsend\nsend\ndeliver\ndeliver\npoll 1\npoll 1\ncredit 1\ncontrol\nsend\ndeliver\npoll 1\npool\n",
        "queued 1 3\nframe 1 0 data 64 2\nframe 1 1 data 64 1\nnothing\naccepted 1 0\naccepted 1 1\ndata 1 64 0\ndata 1 64 0\ncredit 1 3\ngranted 1 3\nframe 1 2 data 6 0\naccepted 1 2\ndata 1 6 1\nrecord 1 aaaaaaaaaaaaaaaaaaaaaaaaaaaaaaaaaaaaaaaaaaaaaaaaaaaaaaaaaaaaaaaaaaaaaaaaaaaaaaaaaaaaaaaaaaaaaaaaaaaaaaaaaaaaaaaaaaaaaaaaaaaaaaaaaa\npool 36 4\n",
    ),
    // What waits without credit is announced once, and gets a floating buffer.
    (
        "open 1 64 40\nemit 1 a\nemit 1 b\nsend\nsend\nannounce\nemit 1 c\nannounce\nannounce\ndeliver\ndeliver\ncredit 1\ndeliver\npool\ncredit 1\ncontrol\nsend\n",
        "queued 1 1\nqueued 1 2\nframe 1 0 data 5 1\nframe 1 1 data 5 0\nnothing\nqueued 1 1\nannounce 1 1\nnothing\naccepted 1 0\naccepted 1 1\ncredit 1 2\nbacklog 1 1\npool 33 7\ncredit 1 1\ngranted 1 2\nframe 1 2 data 5 0\n",
    ),
    // A front barrier goes before all data, and costs no credit.
    (
        "open 1 64 40\nemit 1 x\nemit 1 y\nemit 1 z\nbarrier 1 1 front\nsend\nsend\nsend\nsend\n",
        "queued 1 1\nqueued 1 2\nqueued 1 3\nsaved_out 1 1 00000001780000000179000000017a\nframe 1 0 front 8 3\nframe 1 1 data 5 2\nframe 1 2 data 5 1\nnothing\n",
    ),
    // It goes behind an inline barrier, and what stands before that it does not overtake.
    (
        "open 1 64 40\nemit 1 x\nbarrier 1 1 inline\nemit 1 y\nbarrier 1 2 front\nemit 1 z\nsend\nsend\nsend\ndeliver\ndeliver\npoll 1\npoll 1\nresume 1\ncontrol\nsend\nsend\n",
        "queued 1 1\nok\nqueued 1 2\nsaved_out 1 2 0000000179\nqueued 1 3\nframe 1 0 data 5 2\nframe 1 1 inline 8 2\nnothing\naccepted 1 0\naccepted 1 1\ndata 1 5 1\nrecord 1 x\nbarrier 1 1 inline\nok\nresumed 1\nframe 1 2 front 8 2\nframe 1 3 data 5 1\n",
    ),
    // Two front barriers in a row overtake the same data, and travel in the order of their numbers.
    (
        "open 1 64 40\nbarrier 1 1 front\nemit 1 x\nbarrier 1 2 front\nbarrier 1 3 front\nsend\nsend\nsend\nsend\n",
        "saved_out 1 1 -\nqueued 1 1\nsaved_out 1 2 0000000178\nsaved_out 1 3 0000000178\nframe 1 0 front 8 1\nframe 1 1 front 8 1\nframe 1 2 front 8 1\nframe 1 3 data 5 0\n",
    ),
    // At the receiving end it is given before the data that came before it. Nothing is to be resumed.
    (
        "open 1 64 40\nemit 1 x\nsend\nbarrier 1 1 front\nsend\ndeliver\ndeliver\nhold 1\npoll 1\nresume 1\npoll 1\n",
        "queued 1 1\nframe 1 0 data 5 0\nsaved_out 1 1 -\nframe 1 1 front 8 0\naccepted 1 0\naccepted 1 1\nheld 1\nbarrier 1 1 front\nrefused\ndata 1 5 1\nrecord 1 x\n",
    ),
    // It must have the next number, and nothing is put behind the end.
    (
        "open 1 64 40\nbarrier 1 2 front\nbarrier 1 1 front\nbarrier 1 1 front\nbarrier 1 3 front\nfinish 1\nbarrier 1 2 front\n",
        "refused\nsaved_out 1 1 -\nrefused\nrefused\nok\nrefused\n",
    ),
    // A record is cut by a front barrier: what was read of it is saved with what came, and what was overtaken
    // is the rest of it.
    (
        "open 1 64 40\nfill 1 100\nsend\ndeliver\npoll 1\nbarrier 1 1 front\nsave 1 1\nsend\ndeliver\nsaved 1 1\nsend\ndeliver\npoll 1\npoll 1\n",
        "queued 1 2\nframe 1 0 data 64 1\naccepted 1 0\ndata 1 64 0\nsaved_out 1 1 61616161616161616161616161616161616161616161616161616161616161616161616161616161\nok\nframe 1 1 front 8 1\naccepted 1 1\nsaved_in 1 1 00000064616161616161616161616161616161616161616161616161616161616161616161616161616161616161616161616161616161616161616161616161\nframe 1 2 data 40 0\naccepted 1 2\nbarrier 1 1 front\ndata 1 40 1\nrecord 1 aaaaaaaaaaaaaaaaaaaaaaaaaaaaaaaaaaaaaaaaaaaaaaaaaaaaaaaaaaaaaaaaaaaaaaaaaaaaaaaaaaaaaaaaaaaaaaaaaaaa\n",
    ),
    // A save that is opened before its barrier comes has what arrives until then.
    (
        "open 2 64 40\nsave 2 1\nemit 2 p\nemit 2 q\nsend\nsend\ndeliver\ndeliver\nsaved 2 1\nbarrier 2 1 front\nsend\ndeliver\ncredit 2\ncontrol\nemit 2 r\nsend\ndeliver\nsaved 2 1\n",
        "ok\nqueued 2 1\nqueued 2 2\nframe 2 0 data 5 1\nframe 2 1 data 5 0\naccepted 2 0\naccepted 2 1\nnot yet 2 1\nsaved_out 2 1 -\nframe 2 2 front 8 0\naccepted 2 2\ncredit 2 2\ngranted 2 2\nqueued 2 1\nframe 2 3 data 5 0\naccepted 2 3\nsaved_in 2 1 00000001700000000171\n",
    ),
    // One that is opened behind it has what waits, polled or not when it is closed. It is closed once.
    (
        "open 1 64 40\nemit 1 a\nemit 1 b\nsend\nsend\nbarrier 1 1 front\nsend\ndeliver\ndeliver\ndeliver\nsave 1 1\npoll 1\npoll 1\nsaved 1 1\nsaved 1 1\npoll 1\n",
        "queued 1 1\nqueued 1 2\nframe 1 0 data 5 1\nframe 1 1 data 5 0\nsaved_out 1 1 -\nframe 1 2 front 8 0\naccepted 1 0\naccepted 1 1\naccepted 1 2\nok\nbarrier 1 1 front\ndata 1 5 1\nrecord 1 a\nsaved_in 1 1 00000001610000000162\nrefused\ndata 1 5 1\nrecord 1 b\n",
    ),
    // It has nothing of what came behind its barrier.
    (
        "open 1 64 40\nemit 1 w\nsend\nbarrier 1 1 front\nemit 1 x\nsend\nsend\ndeliver\ndeliver\ndeliver\nsave 1 1\npoll 1\npoll 1\npoll 1\nsaved 1 1\n",
        "queued 1 1\nframe 1 0 data 5 0\nsaved_out 1 1 -\nqueued 1 1\nframe 1 1 front 8 1\nframe 1 2 data 5 0\naccepted 1 0\naccepted 1 1\naccepted 1 2\nok\nbarrier 1 1 front\ndata 1 5 1\nrecord 1 w\ndata 1 5 1\nrecord 1 x\nsaved_in 1 1 0000000177\n",
    ),
    // Of a channel on which nothing came nothing is saved.
    (
        "open 1 64 40\nsave 1 1\nsaved 1 1\nbarrier 1 1 front\nsend\ndeliver\nsaved 1 1\n",
        "ok\nnot yet 1 1\nsaved_out 1 1 -\nframe 1 0 front 8 0\naccepted 1 0\nsaved_in 1 1 -\n",
    ),
    // One save is open at a time, one is opened for each barrier, and no sooner than the barrier before it is polled.
    (
        "open 1 64 40\nsaved 1 1\nsave 1 2\nsave 1 1\nsave 1 1\nsave 1 2\nsaved 1 2\nbarrier 1 1 front\nsend\ndeliver\npoll 1\nsave 1 2\nsaved 1 1\nsave 1 1\nsave 1 3\nsave 1 2\nsaved 1 2\n",
        "refused\nrefused\nok\nrefused\nrefused\nrefused\nsaved_out 1 1 -\nframe 1 0 front 8 0\naccepted 1 0\nbarrier 1 1 front\nrefused\nsaved_in 1 1 -\nrefused\nrefused\nok\nnot yet 1 2\n",
    ),
    // None is opened once data behind the barrier were polled.
    (
        "open 1 64 40\nbarrier 1 1 front\nemit 1 x\nsend\nsend\ndeliver\ndeliver\npoll 1\npoll 1\nsave 1 1\nsave 1 2\n",
        "saved_out 1 1 -\nqueued 1 1\nframe 1 0 front 8 1\nframe 1 1 data 5 0\naccepted 1 0\naccepted 1 1\nbarrier 1 1 front\ndata 1 5 1\nrecord 1 x\nrefused\nok\n",
    ),
    // Two front barriers in a row save the same data.
    (
        "open 1 64 40\nemit 1 x\nsend\nbarrier 1 1 front\nbarrier 1 2 front\nemit 1 y\nsend\nsend\nsend\ndeliver\ndeliver\ndeliver\ndeliver\nsave 1 1\npoll 1\nsaved 1 1\nsave 1 2\npoll 1\npoll 1\nsaved 1 2\npoll 1\n",
        "queued 1 1\nframe 1 0 data 5 0\nsaved_out 1 1 -\nsaved_out 1 2 -\nqueued 1 1\nframe 1 1 front 8 1\nframe 1 2 front 8 1\nframe 1 3 data 5 0\naccepted 1 0\naccepted 1 1\naccepted 1 2\naccepted 1 3\nok\nbarrier 1 1 front\nsaved_in 1 1 0000000178\nok\nbarrier 1 2 front\ndata 1 5 1\nrecord 1 x\nsaved_in 1 2 0000000178\ndata 1 5 1\nrecord 1 y\n",
    ),
    // A front barrier behind an inline one: what the first saves came in line, and the second overtook the rest.
    (
        "open 1 64 40\nemit 1 x\nbarrier 1 1 inline\nemit 1 y\nbarrier 1 2 front\nsend\nsend\ndeliver\ndeliver\nsave 1 1\npoll 1\npoll 1\nsaved 1 1\nsave 1 2\nresume 1\ncontrol\nsend\nsend\ndeliver\ndeliver\nsaved 1 2\n",
        "queued 1 1\nok\nqueued 1 2\nsaved_out 1 2 0000000179\nframe 1 0 data 5 1\nframe 1 1 inline 8 1\naccepted 1 0\naccepted 1 1\nok\ndata 1 5 1\nrecord 1 x\nbarrier 1 1 inline\nsaved_in 1 1 0000000178\nok\nok\nresumed 1\nframe 1 2 front 8 1\nframe 1 3 data 5 0\naccepted 1 2\naccepted 1 3\nsaved_in 1 2 -\n",
    ),
    // A record of eleven buffers is not put in part, and behind ten there is no segment for one more.
    (
        "open 1 64 40\nfill 1 700\nfill 1 600\npool\nfill 1 0\n",
        "full\nqueued 1 10\npool 28 12\nfull\n",
    ),
];

// The events, the last one first.
fn reversed(alloc: Global, events: ListOf<Event>) -> Result<ListOf<Event>, AllocError>
    ensures { (channels : ℕ) → All (IsEvent channels) events.items →
        IfOk result (λ reversed. All (IsEvent channels) reversed.items) }
{
    let mut events = events;
    let mut reversed = ListOf::new(alloc);
    'events: while let Some(event) = events.pop() {
        reversed.push(event)?;
    }
    Ok(reversed)
}

// Prints what is replied to these events, from the last to the first.
fn play<R: Wait>(
    rt: &R,
    alloc: Global,
    channels: u32,
    exchange: &mut Exchange1,
    events: ListOf<Event>,
    printed: &mut ListOf<u8>,
) -> Result<(), AllocError>
    requires sound { IsSound channels exchange.old.world }
    requires events { All (IsEvent channels) events.items }
{
    connections_stay_sound();
    let mut events = events;
    'events: while let Some(event) = events.pop() {
        let reply = exchange.step(rt, alloc, event)?;
        write_reply(&reply, printed)?;
    }
    Ok(())
}

// Reads a script, opens its exchange, and prints what is replied to its events.
fn replies<R: Wait>(rt: &R, alloc: Global, text: &str) -> Result<ListOf<u8>, Fail> {
    connections_stay_sound();
    let Ok(script) = read_script(alloc, text.as_bytes()) else {
        return Err(Fail::from("the text is no script's"));
    };
    let Ok(mut exchange) = Exchange1::new(rt, alloc, script.channels, script.size, script.total)
    else {
        return Err(Fail::from("the exchange was not opened"));
    };
    let channels = script.channels;
    let events = reversed(alloc, script.events)?;
    let mut printed = ListOf::new(alloc);
    play(rt, alloc, channels, &mut exchange, events, &mut printed)?;
    Ok(printed)
}

#[test]
fn scripts_are_replied_to(rt: HostRuntime) -> Result<(), Fail> {
    let alloc = rt.alloc();
    for (script, expected) in CASES {
        let printed = replies(&rt, alloc, script)?;
        assert_eq!(rt; printed.as_slice(), expected.as_bytes());
    }
    Ok(())
}

#[test]
fn four_segments_are_needed_for_each_channel(rt: HostRuntime) -> Result<(), Fail> {
    let alloc = rt.alloc();
    for (channels, total, opens) in [(1, 3, false), (1, 4, true), (16, 63, false), (16, 64, true)] {
        match Exchange1::new(&rt, alloc, channels, 64, total) {
            Ok(_) => assert!(rt; opens),
            Err(fault) => {
                assert_eq!(rt;
                    fault,
                    StartFault::TooFew {
                        need: 4 * channels,
                        have: total
                    }
                )
            }
        }
    }
    Ok(())
}

// A script that puts 4,097 barriers on a channel, and then a front one, a record and the end.
fn barriers(alloc: Global) -> Result<String, Fail> {
    let mut text = String::from_str(alloc, "open 1 64 40\n")?;
    for k in 1..4098 {
        text.push_str(&format!(in alloc; "barrier 1 {k} inline\n")?)?;
    }
    text.push_str("barrier 1 4097 front\nemit 1 a\nfinish 1\n")?;
    Ok(text)
}

#[test]
fn no_more_than_4096_items_wait(rt: HostRuntime) -> Result<(), Fail> {
    let alloc = rt.alloc();
    let script = barriers(alloc)?;
    let printed = replies(&rt, alloc, &script)?;
    let lines = printed.as_slice();
    let full = b"full\nfull\nfull\nfull\n";
    assert_eq!(rt; lines.len(), 4096 * 3 + full.len());
    assert!(rt; lines.ends_with(full));
    Ok(())
}

//! Schedules as text.

ghost use Rattle.std.specs.Prelude.{◌≡◌, ◌<◌, ◌^◌, true};
ghost use Rattle.mem_net.specs.Schedule.{is_sound};
ghost use Rattle.schedule_text.specs.Spelling.{IsTyped, schedule_text, spelled};
ghost use Rattle.schedule_text.specs.Reading.{IsReadAgain};
ghost use Rattle.schedule_text.specs.Output.{WritesTo};

use crate::output::{write_hex, write_numbers, write_word};
use link_trait::{Act, Sink};
use mem_net::Schedule;

/// Writes the text of a schedule, which is sound, and answers whether the sink took all of it.
///
/// It ends at the sink's first fault, after a front of the text. It takes no memory. What is written `read` reads again,
/// unless it has more than 1,048,576 octets.
pub fn print<K: Sink>(schedule: &Schedule, sink: &mut K) -> bool
    requires { is_sound schedule.now ≡ true }
    ensures written { WritesTo K.Sink (schedule_text schedule.now) sink.old sink.new result }
    ensures again { result ≡ true → IsReadAgain schedule.now }
{
    if !write_word(sink, b"corked", &[], b"1") {
        return false;
    }
    'acts: for act in schedule.acts() {
        if !print_act(act, sink) {
            return false;
        }
    }
    true
}

/// Writes the line of an act.
fn print_act<K: Sink>(act: &Act, sink: &mut K) -> bool
    ensures written { WritesTo K.Sink (spelled act.now) sink.old sink.new result }
    ensures typed { IsTyped act.now }
{
    match act {
        Act::Arrive { conn, credit: None } => write_word(sink, b"a", &[conn.0], b"*"),
        Act::Arrive {
            conn,
            credit: Some(credit),
        } => write_numbers(sink, b"a", &[conn.0, widened(*credit)]),
        Act::Octets { conn, octets } => {
            let sent = octets.octets();
            write_hex(sink, b"r", &[conn.0], sent)
        }
        Act::End(conn) => write_numbers(sink, b"e", &[conn.0]),
        Act::ReadFails(conn) => write_numbers(sink, b"f", &[conn.0]),
        Act::Room { conn, more } => write_numbers(sink, b"w", &[conn.0, widened(*more)]),
        Act::WriteFails(conn) => write_numbers(sink, b"b", &[conn.0]),
        Act::Tick => write_numbers(sink, b"t", &[]),
        Act::Turn => write_numbers(sink, b".", &[]),
    }
}

/// The same number, which has at most 32 bits.
fn widened(number: u32) -> u64
    ensures value { result ≡ number }
    ensures below { number < 2 ^ 32 }
{
    u64::from(number)
}

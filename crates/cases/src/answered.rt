// Runs a list of calls, encoded as `docs/CALLS.md` says, and prints a line for each answer: refusal, mark, panel, event and response, and
// behind them the bytes of the request to be spread where there is one.
ghost use Rattle.std.specs.Prelude.{◌+◌, ◌*◌, ◌≤◌, length};
ghost use Rattle.encoding.specs.Encoding.{answer_size};

use descriptors::STDOUT_FILENO;
use encoding::answers::ANSWER_SIZE;
use encoding::calls::{CALL_SIZE, CALLS_AT};
use wire::Message;
use wire::layout::LONGEST_MESSAGE;

// The most calls in 65,536 bytes, which is the longest list that is read.
const MOST_CALLS: usize = (65536 - CALLS_AT) / CALL_SIZE;

// Where an answer's response stands, behind refusal, mark, panel and event, and where the message stands.
const RESPONSE_AT: usize = 4;

const MESSAGE_AT: usize = ANSWER_SIZE - LONGEST_MESSAGE;

// Runs a list of calls and prints its answers.
pub(crate) fn print_run(calls: &[u8]) {
    let mut answers = page();
    let ran = driver::run_list(calls, &mut answers);
    print_answers(&answers[..ran.ran * ANSWER_SIZE]);
}

// Room for the answers to the longest list of calls.
fn page() -> [u8; MOST_CALLS * ANSWER_SIZE] {
    [0; MOST_CALLS * ANSWER_SIZE]
}

// Prints a line for each answer.
fn print_answers(answers: &[u8]) {
    for answer in answers.chunks_exact(ANSWER_SIZE) {
        print_answer(answer);
    }
}

// Prints an answer's line.
fn print_answer(answer: &[u8])
    requires { answer_size ≤ length answer.now }
{
    io::print_decimal(STDOUT_FILENO, u64::from(answer[0]));
    print_bytes(&answer[1..RESPONSE_AT]);
    print_field(response_in(answer));
    print_spread(&answer[MESSAGE_AT..]);
    end_line();
}

// An answer's response, whose lowest byte is the first.
fn response_in(answer: &[u8]) -> u64
    requires { answer_size ≤ length answer.now }
{
    let bytes = [
        answer[RESPONSE_AT],
        answer[RESPONSE_AT + 1],
        answer[RESPONSE_AT + 2],
        answer[RESPONSE_AT + 3],
    ];
    u64::from(u32::from_le_bytes(bytes))
}

// Prints the bytes of the message that these begin with where it spreads a request; the request of zeros, which has no event, is none.
fn print_spread(message: &[u8]) {
    if let Ok(Some(reading)) = wire::read(message, 0) {
        if names_event(reading.message) {
            print_bytes(&message[..reading.taken]);
        }
    }
}

// Whether the request that a message spreads has an event.
fn names_event(message: Message) -> bool {
    match message {
        Message::Request(r) => r.number.event.0 != 0,
        Message::Settlement(n) => n.event.0 != 0,
    }
}

// Prints bytes, each as a number with a space in front.
fn print_bytes(bytes: &[u8]) {
    for byte in bytes {
        print_field(u64::from(*byte));
    }
}

// Prints a number with a space in front.
fn print_field(n: u64) {
    io::write_all(STDOUT_FILENO, b" ");
    io::print_decimal(STDOUT_FILENO, n);
}

// Ends a printed line.
pub(crate) fn end_line() {
    io::write_all(STDOUT_FILENO, b"\n");
}

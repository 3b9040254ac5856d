// The intake for those who link it from C: thin functions over the services, whose answers go into three lent words.
#![tactic(auto)]

ghost use Rattle.std.specs.Prelude.{◌≡◌, [], ◌+◌, ◌*◌, length};
ghost use Rattle.contact.specs.Services as services;
ghost use Rattle.text.specs.Limits.{base};
ghost use Rattle.wire.specs.Held.{words_of, held_in};
ghost use Rattle.wire.specs.Service.{wired};
ghost use Rattle.bezinkol.specs.Answer.{answer_words, Serves, Keeps, Stores, Restores};

use answers::sheet::OnPaper;
use card::judge::judge;
use card::localize::localize;
use json_reader::read::read;
use pieces::reader::{end, said, start, take};
use text::Paper;
use vault::pack::pack;
use vault::unpack::unpack;
use wire::Held;

// The three numbers of an answer, in their order.
fn put_answer(p: Paper, answer: &mut [u64; 3])
    ensures { answer.new ≡ answer_words p }
{
    *answer = [p.number, p.second, p.written];
}

// Reads a text into rows.
#[unsafe(no_mangle)]
pub extern "C" fn bezinkol_read(text: &[u8], table: &mut [u32], answer: &mut [u64; 3])
    ensures { Serves (services.read text.now (length table.old)) answer.new table.new [] }
{
    let rows = read(text, table);
    put_answer(rows.on_paper(), answer);
}

// Judges a text as a card.
#[unsafe(no_mangle)]
pub extern "C" fn bezinkol_judge(text: &[u8], table: &mut [u32], answer: &mut [u64; 3])
    ensures { Serves (services.judge text.now (length table.old)) answer.new table.new [] }
{
    let verdict = judge(text, table);
    put_answer(verdict.on_paper(), answer);
}

// Localizes a card to a language.
#[unsafe(no_mangle)]
pub extern "C" fn bezinkol_localize(
    text: &[u8],
    language: &[u8],
    out: &mut [u8],
    table: &mut [u32],
    answer: &mut [u64; 3],
)
    ensures { Serves (services.localize text.now language.now (length table.old) (length out.old)) answer.new table.new out.new }
{
    let localized = localize(text, language, out, table);
    put_answer(localized.on_paper(), answer);
}

// The state of a reader in pieces in nine words, of which the bits of the brackets are two.
const WORDS: usize = 9;

const HALF: u64 = 0x100000000;

// The two halves of a number.
fn joined(low: u32, high: u32) -> u64
    ensures { result ≡ low + 4294967296 * high }
{
    low as u64 + HALF * high as u64
}

// The state that a caller kept.
fn held_in(state: &[u32; WORDS]) -> Held
    ensures { result ≡ held_in state.now }
{
    Held {
        place: state[0],
        values: state[1],
        depth: state[2],
        opened: joined(state[3], state[4]),
        spot: state[5],
        from: state[6],
        bits: state[7],
        high: state[8],
    }
}

// The words of a state, in their order.
fn put_held(h: Held, state: &mut [u32; WORDS])
    ensures { state.new ≡ words_of h }
{
    *state = [
        h.place,
        h.values,
        h.depth,
        (h.opened % HALF) as u32,
        (h.opened / HALF) as u32,
        h.spot,
        h.from,
        h.bits,
        h.high,
    ];
}

// Begins to read in pieces.
#[unsafe(no_mangle)]
pub extern "C" fn bezinkol_pieces_start(state: &mut [u32; WORDS])
    ensures { state.new ≡ (wired base).start }
{
    put_held(start(), state);
}

// Takes a piece.
#[unsafe(no_mangle)]
pub extern "C" fn bezinkol_pieces_take(
    state: &mut [u32; WORDS],
    piece: &[u8],
    answer: &mut [u64; 3],
)
    ensures { Keeps ((wired base).take state.old piece.now) answer.new state.new }
{
    let h = take(held_in(state), piece);
    put_answer(said(h), answer);
    put_held(h, state);
}

// Is told the end.
#[unsafe(no_mangle)]
pub extern "C" fn bezinkol_pieces_end(state: &mut [u32; WORDS], answer: &mut [u64; 3])
    ensures { Keeps ((wired base).end state.old) answer.new state.new }
{
    let h = end(held_in(state));
    put_answer(said(h), answer);
    put_held(h, state);
}

// Packs a text for the store.
#[unsafe(no_mangle)]
pub extern "C" fn bezinkol_pack(
    text: &[u8],
    out: &mut [u8],
    table: &mut [u32],
    answer: &mut [u64; 3],
)
    ensures { Stores text.now (length table.old) (length out.old) answer.new table.new out.new }
{
    let packing = pack(text, out, table);
    put_answer(packing.on_paper(), answer);
}

// Unpacks what was packed.
#[unsafe(no_mangle)]
pub extern "C" fn bezinkol_unpack(packed: &[u8], out: &mut [u8], answer: &mut [u64; 3])
    ensures { Restores packed.now (length out.old) answer.new out.new }
{
    let unpacking = unpack(packed, out);
    put_answer(unpacking.on_paper(), answer);
}

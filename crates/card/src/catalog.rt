// The catalog: the known properties of a card's types and the rules between them (docs/RULES.md, 5.5 and 5.6), as words and numbers. A
// call of judging makes both lists once and lends them to all below, since a constant list is stored anew wherever it is used. A new
// property is a line in contact/specs/Schema.antt and, at the same place of its type, one in WORDS and one in NUMBERS; COUNT, the starts
// of the types after it and the places of the rules' words after it go up by one. A new rule is in the record of its type there, and at
// the same place its shape and its words in NUMBERS; RULE_COUNT and the rules' starts after it go up by one. A word that no property has
// is a line in WORDS, behind the properties, and one in specs/Catalog.antt; FURTHER goes up by one. A new object type is a number here,
// its name and how long that is, its start in both lists of starts and its properties; TYPES goes up by one. COUNT, FURTHER, RULE_COUNT,
// EACH and TYPES stand in specs/Catalog.antt too. The proofs compute over the catalog.
ghost use Rattle.std.specs.Prelude.{◌≡◌, ◌||◌, ◌+◌, ◌*◌, ◌≤◌, ◌<◌, [], length, get_or, take, drop, eqb};
ghost use Rattle.text.specs.Text.{bytes, byte_at};
ghost use Rattle.contact.specs.Schema.{properties, rules_of, own_name};
ghost use Rattle.card.specs.Catalog.{name_place, name_width, type_count, lines, no_line, all_rules, no_rule, rule_at, rule_words};
ghost use Rattle.card.specs.Catalog.{OwnPart, table_words, Numbers, TriesWord, span_in};

use json_reader::bytes::{BACKSLASH, peek};

// ---- numbers

// A property's number, its code, says all but the letters of its name, as a sum: how long the name is, as `5 * LONG`; MUST if the
// property is mandatory; LIST, FREE or IDS for a list or a map of such items; and the item. Judging hands types on as such codes, of
// which the last two parts count.
pub(crate) const LONG: u32 = 65536;

pub(crate) const MUST: u32 = 32768;

pub(crate) const LIST: u32 = 8192;

const FREE: u32 = 16384;

const IDS: u32 = 24576;

// The items: the value of a property, or each value of a list or a map. Nothing is judged of an unknown property.
pub(crate) const ANY: u32 = 0;

pub(crate) const ANY_STRING: u32 = 1;

pub(crate) const VERSION: u32 = 2;

pub(crate) const FLAG: u32 = 3;

pub(crate) const YES: u32 = 4;

pub(crate) const TIME: u32 = 5;

pub(crate) const ANY_OBJECT: u32 = 6;

// An unsigned integer within a pair of bounds, by the number of the pair (schema.rt).
pub(crate) const BOUNDED: u32 = 32;

const PREF: u32 = BOUNDED;

// An object of a type, as `OBJECT_OF + NAME`, and a type's own name, as `NAME_OF + NAME`.
pub(crate) const OBJECT_OF: u32 = 64;

pub(crate) const NAME_OF: u32 = 128;

// An object of one of two types, as `BY_TYPE + NAME * 64 + PHONE`: the second, if its `@type` says so, else the first.
pub(crate) const BY_TYPE: u32 = 4096;

// The object types.
pub(crate) const CARD: u32 = 0;

const NAME: u32 = 1;

const NAME_COMPONENT: u32 = 2;

const ADDRESS: u32 = 3;

const ADDRESS_COMPONENT: u32 = 4;

const EMAIL_ADDRESS: u32 = 5;

const PHONE: u32 = 6;

// A rule's first number is its shape: one of the words is there;
pub(crate) const ONE_OF: u32 = 0;

// where the first is there, so is one of the others;
pub(crate) const NEEDS: u32 = 1;

// where the first is there, the second is a String with the third as its content;
pub(crate) const NEEDS_STRING: u32 = 2;

// where the first is there, the second is true;
pub(crate) const NEEDS_TRUE: u32 = 3;

// of the list of the first, no two separators stand in a row, and where the second isn't true there is none;
pub(crate) const SEPARATORS: u32 = 4;

// the list of the first, where it is there, has an entry that isn't a separator.
const NOT_ONLY: u32 = 5;

// Its words are numbers too: how long the word is, and its place in WORDS, as `5 * LONG + COUNT`. A name that more than one property has
// is that of the first.
const NO_WORD: u32 = 0;

const KIND: u32 = 4 * LONG + 5;

const MEMBERS: u32 = 7 * LONG + 8;

const COMPONENTS: u32 = 10 * LONG + 15;

const IS_ORDERED: u32 = 9 * LONG + 17;

const DEFAULT_SEPARATOR: u32 = 16 * LONG + 18;

const FULL: u32 = 4 * LONG + 19;

const GROUP: u32 = 5 * LONG + COUNT as u32;

// ---- how many there are, and where each list begins

// Object types, properties, further words, and rules.
const TYPES: usize = 7;

const COUNT: usize = 53;

const FURTHER: usize = 1;

const RULE_COUNT: usize = 9;

// The bytes for each word. The properties' names come first, then further words of the rules, then the types' names.
const WIDTH: usize = 20;

const TYPE_WORDS: usize = COUNT + FURTHER;

// The numbers for each rule: its shape and its words, up to three.
pub(crate) const EACH: usize = 3;

pub(crate) const RULE_WIDTH: usize = 1 + EACH;

// The properties' numbers come first, then where each type's properties begin, where its rules begin, and the rules' numbers.
const LINE_STARTS: usize = COUNT;

const RULE_STARTS: usize = LINE_STARTS + TYPES + 2;

pub(crate) const RULES: usize = RULE_STARTS + TYPES + 2;

// ---- the lists

pub(crate) const WORDS: [u8; (COUNT + FURTHER + TYPES) * WIDTH] = *b"\
    @type               \
    version             \
    uid                 \
    created             \
    updated             \
    kind                \
    language            \
    prodId              \
    members             \
    name                \
    emails              \
    phones              \
    addresses           \
    localizations       \
    @type               \
    components          \
    sortAs              \
    isOrdered           \
    defaultSeparator    \
    full                \
    phoneticScript      \
    phoneticSystem      \
    @type               \
    value               \
    kind                \
    phonetic            \
    @type               \
    components          \
    countryCode         \
    coordinates         \
    timeZone            \
    contexts            \
    pref                \
    isOrdered           \
    defaultSeparator    \
    full                \
    phoneticScript      \
    phoneticSystem      \
    @type               \
    value               \
    kind                \
    phonetic            \
    @type               \
    address             \
    contexts            \
    pref                \
    label               \
    @type               \
    number              \
    features            \
    contexts            \
    pref                \
    label               \
    group               \
    Card                \
    Name                \
    NameComponent       \
    Address             \
    AddressComponent    \
    EmailAddress        \
    Phone               ";

pub(crate) const NUMBERS: [u32; COUNT + 2 * (TYPES + 2) + RULE_COUNT * RULE_WIDTH] = [
    // Card
    5 * LONG + MUST + NAME_OF + CARD, // @type
    7 * LONG + MUST + VERSION, // version
    3 * LONG + MUST + ANY_STRING, // uid
    7 * LONG + TIME, // created
    7 * LONG + TIME, // updated
    4 * LONG + ANY_STRING, // kind
    8 * LONG + ANY_STRING, // language
    6 * LONG + ANY_STRING, // prodId
    7 * LONG + FREE + YES, // members
    4 * LONG + OBJECT_OF + NAME, // name
    6 * LONG + IDS + OBJECT_OF + EMAIL_ADDRESS, // emails
    6 * LONG + IDS + OBJECT_OF + PHONE, // phones
    9 * LONG + IDS + OBJECT_OF + ADDRESS, // addresses
    13 * LONG + FREE + ANY_OBJECT, // localizations
    // Name
    5 * LONG + NAME_OF + NAME, // @type
    10 * LONG + LIST + OBJECT_OF + NAME_COMPONENT, // components
    6 * LONG + FREE + ANY_STRING, // sortAs
    9 * LONG + FLAG, // isOrdered
    16 * LONG + ANY_STRING, // defaultSeparator
    4 * LONG + ANY_STRING, // full
    14 * LONG + ANY_STRING, // phoneticScript
    14 * LONG + ANY_STRING, // phoneticSystem
    // NameComponent
    5 * LONG + NAME_OF + NAME_COMPONENT, // @type
    5 * LONG + MUST + ANY_STRING, // value
    4 * LONG + MUST + ANY_STRING, // kind
    8 * LONG + ANY_STRING, // phonetic
    // Address
    5 * LONG + NAME_OF + ADDRESS, // @type
    10 * LONG + LIST + OBJECT_OF + ADDRESS_COMPONENT, // components
    11 * LONG + ANY_STRING, // countryCode
    11 * LONG + ANY_STRING, // coordinates
    8 * LONG + ANY_STRING, // timeZone
    8 * LONG + FREE + YES, // contexts
    4 * LONG + PREF, // pref
    9 * LONG + FLAG, // isOrdered
    16 * LONG + ANY_STRING, // defaultSeparator
    4 * LONG + ANY_STRING, // full
    14 * LONG + ANY_STRING, // phoneticScript
    14 * LONG + ANY_STRING, // phoneticSystem
    // AddressComponent
    5 * LONG + NAME_OF + ADDRESS_COMPONENT, // @type
    5 * LONG + MUST + ANY_STRING, // value
    4 * LONG + MUST + ANY_STRING, // kind
    8 * LONG + ANY_STRING, // phonetic
    // EmailAddress
    5 * LONG + NAME_OF + EMAIL_ADDRESS, // @type
    7 * LONG + MUST + ANY_STRING, // address
    8 * LONG + FREE + YES, // contexts
    4 * LONG + PREF, // pref
    5 * LONG + ANY_STRING, // label
    // Phone
    5 * LONG + NAME_OF + PHONE, // @type
    6 * LONG + MUST + ANY_STRING, // number
    8 * LONG + FREE + YES, // features
    8 * LONG + FREE + YES, // contexts
    4 * LONG + PREF, // pref
    5 * LONG + ANY_STRING, // label
    // where the properties of each type begin; two more, for what is no type
    0, // Card
    14, // Name
    22, // NameComponent
    26, // Address
    38, // AddressComponent
    42, // EmailAddress
    47, // Phone
    53,
    53,
    // where its rules begin
    0, // Card
    1, // Name
    6, // NameComponent
    6, // Address
    9, // AddressComponent
    9, // EmailAddress
    9, // Phone
    9,
    9,
    // the rules of Card
    NEEDS_STRING,
    MEMBERS,
    KIND,
    GROUP,
    // of Name
    ONE_OF,
    FULL,
    COMPONENTS,
    NO_WORD,
    NOT_ONLY,
    COMPONENTS,
    NO_WORD,
    NO_WORD,
    SEPARATORS,
    COMPONENTS,
    IS_ORDERED,
    NO_WORD,
    NEEDS_TRUE,
    DEFAULT_SEPARATOR,
    IS_ORDERED,
    NO_WORD,
    NEEDS,
    DEFAULT_SEPARATOR,
    COMPONENTS,
    NO_WORD,
    // of Address
    SEPARATORS,
    COMPONENTS,
    IS_ORDERED,
    NO_WORD,
    NEEDS_TRUE,
    DEFAULT_SEPARATOR,
    IS_ORDERED,
    NO_WORD,
    NEEDS,
    DEFAULT_SEPARATOR,
    COMPONENTS,
    NO_WORD,
];

// How long the types' names are; the name of what is no type is empty.
const NAME_SIZES: [u8; TYPES + 1] = [
    4, // Card
    4, // Name
    13, // NameComponent
    7, // Address
    16, // AddressComponent
    12, // EmailAddress
    5, // Phone
    0,
];

// ---- words

// The word with that number, of that size.
pub(crate) fn sized_word(words: &[u8], i: usize, size: usize) -> &[u8]
    requires { i * name_width + size ≤ length words.now }
    ensures { result.now ≡ take size (drop (i * name_width) words.now) }
{
    let from = i * WIDTH;
    let to = from + size;
    &words[from..to]
}

// Word j of rule i; behind the last there are empty ones.
pub(crate) fn rule_word<'a>(words: &'a [u8], numbers: &[u32], i: usize, j: usize) -> &'a [u8]
    requires { TriesWord words.now numbers.now i j }
    ensures { result.now ≡ get_or (rule_words (rule_at i)) j [] }
{
    let at = RULES + i * RULE_WIDTH + 1 + j;
    let word = numbers[at];
    let place = (word % LONG) as usize;
    let size = (word / LONG) as usize;
    sized_word(words, place, size)
}

// May a name whose first written byte is that one be the word with that number? A backslash may stand for any byte.
pub(crate) fn may_be(words: &[u8], i: usize, first: u16) -> bool
    requires { i * name_width < length words.now }
    ensures { result ≡ (eqb first 92 || eqb (byte_at words.now (i * name_width)) first) }
{
    first == BACKSLASH || peek(words, i * WIDTH) == first
}

// The place of an object type. Those without a record have the one behind the last.
fn name_place(o: u32) -> usize
    ensures { result ≡ name_place o }
{
    TYPES.min(o as usize)
}

// The name of an object type.
pub(crate) fn type_name(words: &[u8], o: u32) -> &[u8]
    requires { words.now ≡ table_words }
    ensures { result.now ≡ bytes (own_name o) }
{
    let place = name_place(o);
    let size = NAME_SIZES[place] as usize;
    sized_word(words, TYPE_WORDS + place, size)
}

// ---- what a type has

// Some of the properties, or of the rules: from the first up to, and without, the last.
#[derive(Clone, Copy)]
pub(crate) struct Span {
    pub first: usize,
    pub last: usize,
}

// What a type has, by the starts that stand from a place on.
fn span_at(numbers: &[u32], starts: usize, o: u32) -> Span
    requires { starts + type_count + 1 < length numbers.now }
    ensures { result ≡ span_in numbers.now starts o }
{
    let at = starts + name_place(o);
    let first = numbers[at] as usize;
    let last = numbers[at + 1] as usize;
    Span { first, last }
}

// The properties of an object type.
pub(crate) fn lines_of(numbers: &[u32], o: u32) -> Span
    requires { Numbers numbers.now }
    ensures { OwnPart lines (properties o) no_line result.first result.last }
{
    span_at(numbers, LINE_STARTS, o)
}

// The rules of an object type.
pub(crate) fn rules_of(numbers: &[u32], o: u32) -> Span
    requires { Numbers numbers.now }
    ensures { OwnPart all_rules (rules_of o) no_rule result.first result.last }
{
    span_at(numbers, RULE_STARTS, o)
}

//! The first word of a line.
ghost use Rattle.std.specs.Prelude.{◌≡◌};
ghost use Rattle.iox_line.specs.Words.{same};
ghost use Rattle.iox_line.specs.Verbs.{verb_of, seldom_verb_of, service_verb_of};

/// What a line asks for. Not in `iceoryx2`.
#[derive(Clone, Copy)]
pub enum Verb {
    /// `node`
    Node,
    /// `close`
    Close,
    /// `publisher`
    Publisher,
    /// `subscriber`
    Subscriber,
    /// `loan`
    Loan,
    /// `loan_uninit`
    LoanUninit,
    /// `set`
    Set,
    /// `fill`
    Fill,
    /// `drop`
    Drop,
    /// `send`
    Send,
    /// `put`
    Put,
    /// `retry`
    Retry,
    /// `giveup`
    GiveUp,
    /// `receive`
    Receive,
    /// `read`
    Read,
    /// `sequence`
    Sequence,
    /// `release`
    Release,
    /// `update`
    Update,
    /// `leave`
    Leave,
    /// `has`
    Has,
}

/// The verb of a line that names a service. Not in `iceoryx2`.
#[derive(Clone, Copy)]
pub enum ServiceVerb {
    /// `create`
    Create,
    /// `open`
    Open,
    /// `open_or_create`
    OpenOrCreate,
    /// `foreign`
    Foreign,
}

/// The verb of a command that isn't on an existing port. Not in `iceoryx2`.
#[derive(Clone, Copy)]
pub enum OtherVerb {
    /// `node`
    Node,
    /// `close`
    Close,
    /// `publisher`
    Publisher,
    /// `subscriber`
    Subscriber,
    /// The verb of a line that names a service.
    Service(ServiceVerb),
}

// Whether a word is this text. Verbs are short: comparing their bytes one by one is quicker than comparing slices.
#[inline(always)]
fn is(word: &[u8], text: &[u8]) -> bool
    ensures { result ≡ same word.now text.now }
{
    if word.len() != text.len() {
        return false;
    }
    for place in 0..text.len() {
        if word[place] != text[place] {
            return false;
        }
    }
    true
}

/// The verb that a first word spells, except those that name a service; `None` if it isn't one.
pub fn first_verb(word: &[u8]) -> Option<Verb>
    ensures { result ≡ verb_of word.now }
{
    if is(word, b"put") {
        Some(Verb::Put)
    } else if is(word, b"receive") {
        Some(Verb::Receive)
    } else if is(word, b"release") {
        Some(Verb::Release)
    } else if is(word, b"loan") {
        Some(Verb::Loan)
    } else if is(word, b"send") {
        Some(Verb::Send)
    } else if is(word, b"fill") {
        Some(Verb::Fill)
    } else if is(word, b"set") {
        Some(Verb::Set)
    } else if is(word, b"read") {
        Some(Verb::Read)
    } else if is(word, b"has") {
        Some(Verb::Has)
    } else if is(word, b"update") {
        Some(Verb::Update)
    } else {
        seldom_verb(word)
    }
}

/// The verb that a first word spells, of those that are seldom used.
fn seldom_verb(word: &[u8]) -> Option<Verb>
    ensures { result ≡ seldom_verb_of word.now }
{
    if is(word, b"node") {
        Some(Verb::Node)
    } else if is(word, b"close") {
        Some(Verb::Close)
    } else if is(word, b"publisher") {
        Some(Verb::Publisher)
    } else if is(word, b"subscriber") {
        Some(Verb::Subscriber)
    } else if is(word, b"loan_uninit") {
        Some(Verb::LoanUninit)
    } else if is(word, b"drop") {
        Some(Verb::Drop)
    } else if is(word, b"retry") {
        Some(Verb::Retry)
    } else if is(word, b"giveup") {
        Some(Verb::GiveUp)
    } else if is(word, b"leave") {
        Some(Verb::Leave)
    } else if is(word, b"sequence") {
        Some(Verb::Sequence)
    } else {
        None
    }
}

/// The verb that a first word spells, of those that name a service; `None` if it isn't one.
pub fn service_verb(word: &[u8]) -> Option<ServiceVerb>
    ensures { result ≡ service_verb_of word.now }
{
    if is(word, b"create") {
        Some(ServiceVerb::Create)
    } else if is(word, b"open") {
        Some(ServiceVerb::Open)
    } else if is(word, b"open_or_create") {
        Some(ServiceVerb::OpenOrCreate)
    } else if is(word, b"foreign") {
        Some(ServiceVerb::Foreign)
    } else {
        None
    }
}

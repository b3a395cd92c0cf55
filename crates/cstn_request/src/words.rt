// The words of a request.
ghost use Rattle.std.specs.Prelude.{◌≡◌, ◌≤◌, IfSome, map, string_bytes};
ghost use Rattle.std.specs.Option.{option_map, option_and_then, unwrap_or};
ghost use Rattle.cstn_net.specs.Limits.{most_load};
ghost use Rattle.cstn_text.specs.Numbers.{number_within};
ghost use Rattle.cstn_request.specs.Requests.{option_value, option_at, deadline_at, cap_at, deadline_alone, cap_of};
ghost use Rattle.cstn_request.specs.Requests.{asked_of, capped_of, capped_at, checked_of, drill_of, request_at};
ghost use Rattle.cstn_request.specs.Requests.{of_network, of_labelled, of_text, of_document, of_plan, network_labels, text_labels};
ghost use Rattle.cstn_request.specs.Requests.{hosted_of, host_of, version_of};
ghost use Rattle.cstn_request.specs.Limits.{usual_cap};
ghost use Rattle.cstn_request.specs.Read.{the_asked_file, the_capped, the_taken, the_request, request_in};

use crate::HostFiles;
use cstn_log::Cap;
use cstn_net::{MAX_DEADLINE, MAX_LOAD};
use cstn_text::read_number;

/// `FILE [--deadline N]`: the file of a document, and the deadline in ticks that is to hold, if one is named.
#[derive(Clone, Copy)]
pub struct Asked<'a> {
    pub file: &'a str,
    pub deadline: Option<u32>,
}

/// What a program is: the number of its release, and the version of the lines that it takes and answers.
#[derive(Clone, Copy)]
pub struct Release {
    pub number: u32,
    pub lines: u32,
}

/// What is asked of a network, the log of which may have so many entries.
#[derive(Clone, Copy)]
pub enum NetworkVerb {
    Check,
    Closed,
    Tight,
    Conflict,
    Tree,
    Edit,
}

impl NetworkVerb {
    /// Whether time-points may have labels: the network is then the one that the labelled network is lowered to.
    pub fn takes_labels(self) -> bool
        ensures taken { result ≡ network_labels self }
    {
        match self {
            NetworkVerb::Check | NetworkVerb::Closed | NetworkVerb::Tight => true,
            NetworkVerb::Conflict | NetworkVerb::Tree | NetworkVerb::Edit => false,
        }
    }
}

/// What is asked of a labelled network, the log of which may have so many entries.
#[derive(Clone, Copy)]
pub enum LabelledVerb {
    Follow,
    Run,
    Cases,
}

/// What is asked of a network and a text that is to be checked against it.
#[derive(Clone, Copy)]
pub enum TextVerb {
    Replay,
    Closedcheck,
    Treecheck,
}

impl TextVerb {
    /// Whether time-points may have labels: the network is then the one that the labelled network is lowered to.
    pub fn takes_labels(self) -> bool
        ensures taken { result ≡ text_labels self }
    {
        match self {
            TextVerb::Replay | TextVerb::Closedcheck => true,
            TextVerb::Treecheck => false,
        }
    }
}

/// What is asked of a document alone.
#[derive(Clone, Copy)]
pub enum DocumentVerb {
    Save,
    Sentences,
}

/// What the words ask for, by what they name: a document, with how many entries a log may have, with a text, or with no more; a
/// plan in sentences; a number; files; or nothing but the program.
#[derive(Clone, Copy)]
pub enum Request<'a> {
    OfNetwork {
        verb: NetworkVerb,
        asked: Asked<'a>,
        cap: Cap,
    },
    OfLabelled {
        verb: LabelledVerb,
        asked: Asked<'a>,
        cap: Cap,
    },
    OfText {
        verb: TextVerb,
        asked: Asked<'a>,
        proof: &'a str,
    },
    OfDocument {
        verb: DocumentVerb,
        asked: Asked<'a>,
    },
    OfPlan(Asked<'a>),
    Drill(u64),
    Host {
        files: HostFiles<'a>,
        deadline: Option<u32>,
        cap: Cap,
    },
    Version(Release),
}

// The number of an option, if it is there, and the words after it.
#[derive(Clone, Copy)]
struct Taken<'a> {
    value: Option<u64>,
    rest: &'a [String],
}

const MAX_HOST_CAP: u64 = 65_536;

const MAX_FILES: usize = 8;

/// The request that the words are to a program of this release; none where they are no request.
pub fn parse(release: Release, words: &[String]) -> Option<Request<'_>>
    ensures request { option_map the_request result ≡ request_in release words.now }
{
    let [command, rest @ ..] = words else {
        return None;
    };
    request_at(release, command.as_str(), rest)
}

// The request of a command with these words after it, to a program of this release.
fn request_at<'a>(release: Release, command: &str, rest: &'a [String]) -> Option<Request<'a>>
    ensures request { option_map the_request result ≡ request_at release command.now (map string_bytes rest.now) }
{
    match command {
        "save" => document_request(DocumentVerb::Save, rest),
        "sentences" => document_request(DocumentVerb::Sentences, rest),
        "plan" => plan_request(rest),
        "replay" => text_request(TextVerb::Replay, rest),
        "closedcheck" => text_request(TextVerb::Closedcheck, rest),
        "treecheck" => text_request(TextVerb::Treecheck, rest),
        "drill" => drill_of(rest),
        "host" => host_of(rest),
        "--version" => version_of(release, rest),
        command => capped_request(command, rest),
    }
}

// The request of a verb that takes a document alone, by the words after it.
fn document_request(verb: DocumentVerb, words: &[String]) -> Option<Request<'_>>
    ensures request { option_map the_request result ≡ option_map (of_document verb) (asked_of (map string_bytes words.now)) }
{
    let asked = asked_of(words)?;
    Some(Request::OfDocument { verb, asked })
}

// The request for the document of a plan in sentences, by the words after it.
fn plan_request(words: &[String]) -> Option<Request<'_>>
    ensures request { option_map the_request result ≡ option_map of_plan (asked_of (map string_bytes words.now)) }
{
    let asked = asked_of(words)?;
    Some(Request::OfPlan(asked))
}

// The request of a verb that takes a document and a text, by the words after it.
fn text_request(verb: TextVerb, words: &[String]) -> Option<Request<'_>>
    ensures request { option_map the_request result ≡ option_map (λ found. of_text verb found.0 found.1) (checked_of (map string_bytes words.now)) }
{
    let (asked, proof) = checked_of(words)?;
    Some(Request::OfText { verb, asked, proof })
}

// The request of a command that takes a file and a cap, by the words after it. A cap is how many entries a log may have.
fn capped_request<'a>(command: &str, words: &'a [String]) -> Option<Request<'a>>
    ensures request { option_map the_request result ≡ option_and_then (capped_at command.now) (capped_of (map string_bytes words.now)) }
{
    let (asked, cap) = capped_of(words)?;
    capped_at(command, asked, cap)
}

// The request of a command with this file and cap; none where the command takes no cap.
fn capped_at<'a>(command: &str, asked: Asked<'a>, cap: Cap) -> Option<Request<'a>>
    ensures request { option_map the_request result ≡ capped_at command.now (the_asked_file asked.entry, cap.entries) }
{
    match command {
        "check" => Some(on_network(NetworkVerb::Check, asked, cap)),
        "run" => Some(on_labelled(LabelledVerb::Run, asked, cap)),
        "edit" => Some(on_network(NetworkVerb::Edit, asked, cap)),
        "follow" => Some(on_labelled(LabelledVerb::Follow, asked, cap)),
        "closed" => Some(on_network(NetworkVerb::Closed, asked, cap)),
        "tight" => Some(on_network(NetworkVerb::Tight, asked, cap)),
        "conflict" => Some(on_network(NetworkVerb::Conflict, asked, cap)),
        "tree" => Some(on_network(NetworkVerb::Tree, asked, cap)),
        "cases" => Some(on_labelled(LabelledVerb::Cases, asked, cap)),
        _ => None,
    }
}

fn on_network<'a>(verb: NetworkVerb, asked: Asked<'a>, cap: Cap) -> Request<'a>
    ensures request { the_request result ≡ of_network verb (the_asked_file asked.entry) cap.entries }
{
    Request::OfNetwork { verb, asked, cap }
}

fn on_labelled<'a>(verb: LabelledVerb, asked: Asked<'a>, cap: Cap) -> Request<'a>
    ensures request { the_request result ≡ of_labelled verb (the_asked_file asked.entry) cap.entries }
{
    Request::OfLabelled { verb, asked, cap }
}

// A file with its deadline, and the file of the text that is to be checked against it.
fn checked_of(words: &[String]) -> Option<(Asked<'_>, &str)>
    ensures checked { option_map (λ found. (the_asked_file found.0, found.1.now)) result ≡ checked_of (map string_bytes words.now) }
{
    let [file, proof, rest @ ..] = words else {
        return None;
    };
    let deadline = deadline_alone(rest)?;
    let asked = Asked {
        file: file.as_str(),
        deadline,
    };
    Some((asked, proof.as_str()))
}

fn drill_of(words: &[String]) -> Option<Request<'_>>
    ensures request { option_map the_request result ≡ drill_of (map string_bytes words.now) }
{
    let [number] = words else {
        return None;
    };
    Some(Request::Drill(read_number(number.as_bytes())?))
}

// The request of a host, by its options and the files after them.
fn host_of(words: &[String]) -> Option<Request<'_>>
    ensures request { option_map the_request result ≡ host_of (map string_bytes words.now) }
{
    let (deadline, rest) = deadline_at(words)?;
    let taken = option_at(rest, "--cap", 1, MAX_HOST_CAP)?;
    hosted_of(deadline, taken)
}

// The request of a host with the files that stand after its options; none where they aren't 1 to 8.
fn hosted_of<'a>(deadline: Option<u32>, taken: Taken<'a>) -> Option<Request<'a>>
    requires least { IfSome taken.value (λ n. 1 ≤ n) }
    requires most { IfSome taken.value (λ n. n ≤ most_load) }
    ensures request { option_map the_request result ≡ hosted_of deadline (the_taken taken.entry) }
{
    let names = taken.rest;
    if names.is_empty() || names.len() > MAX_FILES {
        return None;
    }
    Some(Request::Host {
        files: HostFiles { names },
        deadline,
        cap: cap_or_usual(taken.value),
    })
}

// The request for what a program of this release is: no word may stand after it.
fn version_of(release: Release, words: &[String]) -> Option<Request<'_>>
    ensures request { option_map the_request result ≡ version_of release (map string_bytes words.now) }
{
    let [] = words else {
        return None;
    };
    Some(Request::Version(release))
}

fn asked_of(words: &[String]) -> Option<Asked<'_>>
    ensures asked { option_map the_asked_file result ≡ asked_of (map string_bytes words.now) }
{
    let [file, rest @ ..] = words else {
        return None;
    };
    let deadline = deadline_alone(rest)?;
    Some(Asked {
        file: file.as_str(),
        deadline,
    })
}

// A file with its deadline, and how many entries its log may have.
fn capped_of(words: &[String]) -> Option<(Asked<'_>, Cap)>
    ensures capped { option_map the_capped result ≡ capped_of (map string_bytes words.now) }
{
    let [file, rest @ ..] = words else {
        return None;
    };
    let (deadline, rest) = deadline_at(rest)?;
    let cap = cap_of(rest)?;
    let asked = Asked {
        file: file.as_str(),
        deadline,
    };
    Some((asked, cap))
}

// The deadline of words that are `[--deadline N]` and no more: `Some(None)` where it isn't there, none for other words.
fn deadline_alone(words: &[String]) -> Option<Option<u32>>
    ensures deadline { result ≡ deadline_alone (map string_bytes words.now) }
{
    let (deadline, rest) = deadline_at(words)?;
    if !rest.is_empty() {
        return None;
    }
    Some(deadline)
}

// The deadline that the words begin with, if it is there, and the words after it; none where `--deadline` has no number.
fn deadline_at(words: &[String]) -> Option<(Option<u32>, &[String])>
    ensures taken { option_map (λ t. record { value = t.0; rest = map string_bytes t.1.now }) result ≡ deadline_at (map string_bytes words.now) }
{
    let taken = option_at(words, "--deadline", 0, MAX_DEADLINE as u64)?;
    match taken.value {
        None => Some((None, taken.rest)),
        Some(n) => Some((Some(n as u32), taken.rest)),
    }
}

// The cap of words that are `[--cap CAP]` and no more, 65,536 where it isn't there; none for other words.
fn cap_of(words: &[String]) -> Option<Cap>
    ensures cap { option_map (λ cap. cap.entries) result ≡ cap_of (map string_bytes words.now) }
{
    let taken = option_at(words, "--cap", 1, MAX_LOAD as u64)?;
    if !taken.rest.is_empty() {
        return None;
    }
    Some(cap_or_usual(taken.value))
}

// The cap of an option, and the usual one where none is named.
fn cap_or_usual(value: Option<u64>) -> Cap
    requires some { IfSome value (λ n. 1 ≤ n) }
    requires most { IfSome value (λ n. n ≤ most_load) }
    ensures cap { result.entries ≡ unwrap_or value usual_cap }
{
    match value {
        None => Cap::USUAL,
        Some(n) => Cap { entries: n as u32 },
    }
}

// The number of an option, if the words begin with its name, and the words after it; none where the name stands there without
// a number from `least` to `most`.
fn option_at<'a>(words: &'a [String], name: &str, least: u64, most: u64) -> Option<Taken<'a>>
    ensures taken { option_map the_taken result ≡ option_at name.now least most (map string_bytes words.now) }
    ensures least { IfSome result (λ taken. IfSome taken.value (λ n. least ≤ n)) }
    ensures most { IfSome result (λ taken. IfSome taken.value (λ n. n ≤ most)) }
{
    let [word, rest @ ..] = words else {
        return Some(Taken {
            value: None,
            rest: words,
        });
    };
    if word.as_str() != name {
        return Some(Taken {
            value: None,
            rest: words,
        });
    }
    option_value(rest, least, most)
}

// The number from `least` to `most` that the words begin with, and the words after it; none where they begin otherwise.
fn option_value(words: &[String], least: u64, most: u64) -> Option<Taken<'_>>
    ensures taken { option_map the_taken result ≡ option_value least most (map string_bytes words.now) }
    ensures least { IfSome result (λ taken. IfSome taken.value (λ n. least ≤ n)) }
    ensures most { IfSome result (λ taken. IfSome taken.value (λ n. n ≤ most)) }
{
    let [word, rest @ ..] = words else {
        return None;
    };
    let n = number_within(word.as_bytes(), least, most)?;
    Some(Taken {
        value: Some(n),
        rest,
    })
}

// The number of the digits, if it is from `least` to `most`.
fn number_within(bytes: &[u8], least: u64, most: u64) -> Option<u64>
    ensures value { result ≡ number_within least most bytes.now }
    ensures least { IfSome result (λ n. least ≤ n) }
    ensures most { IfSome result (λ n. n ≤ most) }
{
    let number = read_number(bytes)?;
    if number < least || number > most {
        return None;
    }
    Some(number)
}

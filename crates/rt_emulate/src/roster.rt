// Who is connected and what each listens to, as those are told that ask for it.
ghost use Rattle.std.specs.Prelude.{◌≡◌, ◌&&◌, ◌||◌, ◌++◌, None, map, not, true, is_some, option_map};
ghost use Rattle.std.specs.Prelude.{string_bytes, IfOk, OnOk, [], false};
ghost use Rattle.std.specs.Net.Text.{socket_text};
ghost use Rattle.serde_json.specs.Data.{string};
ghost use Rattle.serde_json.specs.Written.{compact_text};
ghost use Rattle.rt_hub.specs.Hubs.{listen_texts};
ghost use Rattle.rt_emulate.specs.Clients.{begun, client_text, clients_text, comma, from_text, listed};
ghost use Rattle.rt_emulate.specs.Clients.{number_text, origin_text, told_text, whole_text};
ghost use Rattle.rt_emulate.specs.inside.Rosters.{Begins, Ends, PutsListen, put_to, client_in, client_of};
ghost use Rattle.rt_emulate.specs.inside.Rosters.{clients_of, is_due, is_news, renewed, text_if_there};

use crate::draft::Draft;
use crate::guest::Guest;
use crate::present::Present;
use rt_hub::Hub;
use serde_json::Value;
use std::alloc::{AllocError, Global};
use std::net::SocketAddr;

// What is told where the text would be too long.
const TOO_LONG: &str = "{\"clients\":null,\"k\":\"clients\"}";

// A comma, before all but the first.
fn comma(is_first: bool) -> &'static str
    ensures { result.now ≡ comma is_first }
{
    if is_first { "" } else { "," }
}

// What one begins with.
fn begun(asks: bool) -> &'static str
    ensures { result.now ≡ begun asks }
{
    if asks {
        "{\"asks\":true,\"from\":\""
    } else {
        "{\"from\":\""
    }
}

// Puts the connection's next listen behind that tag, unless the draft is too long. Answers its tag.
fn put_listen(
    hub: &Hub,
    connection: u64,
    above: Option<u64>,
    is_first: bool,
    draft: &mut Draft,
) -> Result<Option<u64>, AllocError>
    ensures { IfOk result (λ tag.
        PutsListen hub.now connection above is_first tag draft.old draft.new) }
{
    if draft.is_over() {
        return Ok(None);
    }
    match hub.next_listen(connection, above)? {
        Some((tag, text)) => {
            put_text(is_first, text.as_str(), draft)?;
            Ok(Some(tag))
        }
        None => Ok(None),
    }
}

// Puts a text, with a comma before all but the first.
fn put_text(is_first: bool, text: &str, draft: &mut Draft) -> Result<(), AllocError>
    ensures { OnOk result (draft.new ≡ put_to (comma is_first ++ text.now) draft.old) }
{
    draft.put(comma(is_first))?;
    draft.put(text)
}

// Puts what the connection listens to, one listen after another.
fn put_listens(hub: &Hub, connection: u64, draft: &mut Draft) -> Result<(), AllocError>
    ensures { OnOk result
        (draft.new ≡ put_to (listed true (listen_texts hub.now connection None)) draft.old) }
{
    let mut above = None;
    let mut is_first = true;
    'listens: loop {
        let Some(tag) = put_listen(hub, connection, above, is_first, draft)? else {
            return Ok(());
        };
        above = Some(tag);
        is_first = false;
    }
}

// Puts where one comes from, and whether it asks.
fn put_from(
    alloc: Global,
    asks: bool,
    from: SocketAddr,
    draft: &mut Draft,
) -> Result<(), AllocError>
    ensures { OnOk result (draft.new ≡ put_to (from_text asks (socket_text from)) draft.old) }
{
    let begun = begun(asks);
    let text = format!(in alloc; "{begun}{from}\",\"listens\":[")?;
    draft.put(text.as_str())
}

// Puts its number.
fn put_number(alloc: Global, connection: u64, draft: &mut Draft) -> Result<(), AllocError>
    ensures { OnOk result (draft.new ≡ put_to (number_text connection) draft.old) }
{
    let text = format!(in alloc; "],\"n\":{connection}")?;
    draft.put(text.as_str())
}

// A text as JSON.
fn quoted(alloc: Global, text: &str) -> Result<String, AllocError>
    ensures { IfOk result (λ json. string_bytes json ≡ compact_text (string text.now)) }
{
    let value = Value::try_from_str(alloc, text)?;
    value.to_string(alloc)
}

// Puts the origin of its page, if there is one.
fn put_origin(alloc: Global, origin: &Option<String>, draft: &mut Draft) -> Result<(), AllocError>
    ensures { OnOk result
        (draft.new ≡ put_to (origin_text (option_map string_bytes origin.now)) draft.old) }
{
    match origin {
        Some(origin) => {
            let json = quoted(alloc, origin.as_str())?;
            let text = format!(in alloc; ",\"origin\":{json}")?;
            draft.put(text.as_str())
        }
        None => Ok(()),
    }
}

// Puts what is told of one that is connected.
fn put_client(
    alloc: Global,
    hub: &Hub,
    connection: u64,
    guest: &Guest,
    draft: &mut Draft,
) -> Result<(), AllocError>
    ensures { OnOk result
        (draft.new ≡ put_to (client_text (client_of hub.now connection guest.now)) draft.old) }
{
    put_from(alloc, guest.visit.asks, guest.from, draft)?;
    put_listens(hub, connection, draft)?;
    put_number(alloc, connection, draft)?;
    put_origin(alloc, &guest.visit.origin, draft)?;
    draft.put("}")
}

// Puts what is told of the connection, if the guest at that place is it. Answers whether it is.
fn put_place(
    alloc: Global,
    hub: &Hub,
    present: &Present,
    place: Option<usize>,
    connection: u64,
    is_first: bool,
    draft: &mut Draft,
) -> Result<bool, AllocError>
    ensures there { IfOk result (λ there. there ≡ is_some (client_in present.now place connection)) }
    ensures put { OnOk result (draft.new ≡ put_to
        (text_if_there is_first hub.now connection (client_in present.now place connection))
        draft.old) }
{
    match present.client(place, connection) {
        Some(guest) => {
            draft.put(comma(is_first))?;
            put_client(alloc, hub, connection, guest, draft)?;
            Ok(true)
        }
        None => Ok(false),
    }
}

// Whether the next one is the first, where one came before or didn't.
fn stays_first(is_first: bool, there: bool) -> bool
    ensures { result ≡ (is_first && not there) }
{
    is_first && !there
}

// Puts what is told of all that are connected, by their numbers.
fn put_clients(
    alloc: Global,
    hub: &Hub,
    present: &Present,
    draft: &mut Draft,
) -> Result<(), AllocError>
    ensures { OnOk result (draft.new ≡ put_to
        (listed true (map client_text (clients_of hub.now present.now))) draft.old) }
{
    let mut is_first = true;
    for index in 0..present.places.len() {
        let connection = index as u64 + 1;
        let place = present.places[index];
        let there = put_place(alloc, hub, present, place, connection, is_first, draft)?;
        is_first = stays_first(is_first, there);
    }
    Ok(())
}

// Puts the whole text.
fn put_whole(
    alloc: Global,
    hub: &Hub,
    present: &Present,
    draft: &mut Draft,
) -> Result<(), AllocError>
    ensures { OnOk result
        (draft.new ≡ put_to (whole_text (clients_of hub.now present.now)) draft.old) }
{
    draft.put("{\"clients\":[")?;
    put_clients(alloc, hub, present, draft)?;
    draft.put("],\"k\":\"clients\"}")
}

// What is told, where that is the text, unless it is too long.
fn told(alloc: Global, text: Option<String>) -> Result<String, AllocError>
    ensures { IfOk result (λ told. string_bytes told ≡ told_text (option_map string_bytes text)) }
{
    match text {
        Some(text) => Ok(text),
        None => String::from_str(alloc, TOO_LONG),
    }
}

/// The text that says who is connected and what each listens to. Costs by these, up to the most that is told.
///
/// # Errors
///
/// A want of memory.
pub(crate) fn clients_text(
    alloc: Global,
    hub: &Hub,
    present: &Present,
) -> Result<String, AllocError>
    ensures { IfOk result (λ text.
        string_bytes text ≡ clients_text (clients_of hub.now present.now)) }
{
    let mut draft = Draft::new(alloc);
    put_whole(alloc, hub, present, &mut draft)?;
    told(alloc, draft.into_text())
}

/// What those are told that ask who is connected.
pub(crate) struct Roster {
    /// The newest text.
    pub(crate) text: String,
    /// Which text it is, from 1; 0 where none counts.
    pub(crate) version: u64,
    // Whether who is connected, or what one listens to, may have changed since.
    is_stale: bool,
    /// The connections that ask.
    pub(crate) askers: Vec<u64>,
}

impl Drop for Roster {
    fn drop(self) {
        let Roster {
            text: _,
            version: _,
            is_stale: _,
            askers: _,
        } = self;
    }
}

impl Roster {
    /// Nobody asks yet. Takes no memory.
    pub(crate) fn new(alloc: Global) -> Roster
        ensures nobody { (result.askers.items ≡ []) × (string_bytes result.text ≡ []) }
        ensures rest { result ≡ record {
          text = result.text;
          version = 0;
          is_stale = false;
          askers = result.askers;
        } }
    {
        Roster {
            text: String::new(alloc),
            version: 0,
            is_stale: false,
            askers: Vec::new(alloc),
        }
    }

    /// A connection begins, and may ask.
    pub(crate) fn begin(&mut self, connection: u64, asks: bool) -> Result<(), AllocError>
        ensures { OnOk result (Begins connection asks self.old self.new) }
    {
        self.is_stale = true;
        if asks {
            self.askers.push(connection)?;
        }
        Ok(())
    }

    /// A connection ends, and asks no more. Where nobody asks no text counts.
    pub(crate) fn end(&mut self, connection: u64)
        ensures { Ends connection self.old self.new }
    {
        self.is_stale = true;
        self.askers.retain(|asker| *asker != connection);
        if self.askers.is_empty() {
            self.version = 0;
        }
    }

    /// A message came. A request that is accepted changes no listen.
    pub(crate) fn hear(&mut self, is_accepted: bool)
        ensures { self.new ≡ record (self.old) { is_stale = self.old.is_stale || not is_accepted } }
    {
        if !is_accepted {
            self.is_stale = true;
        }
    }

    /// Whether the text is to be made anew.
    pub(crate) fn is_due(&self) -> bool
        ensures { result ≡ is_due self.now }
    {
        self.is_stale && !self.askers.is_empty()
    }

    // Whether a new text says something else than that which counts, if one does.
    fn is_news(&self, text: &str) -> bool
        ensures { result ≡ is_news text.now self.now }
    {
        self.version == 0 || self.text.as_str() != text
    }

    /// That is the text from now on.
    pub(crate) fn renew(&mut self, text: String)
        ensures { self.new ≡ renewed text self.old }
    {
        if self.is_news(text.as_str()) {
            self.version = self.version.saturating_add(1);
        }
        self.text = text;
        self.is_stale = false;
    }
}

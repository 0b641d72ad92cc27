// Who may ask by plain HTTP.
ghost use Rattle.std.specs.Prelude.{◌≡◌, map, codes, option_copied, string_bytes, IfOk};
ghost use Rattle.rt_emulate.specs.Asked.{IsJudged, may_host, may_page, may_reach};

use rt_http::Fault;
use rt_socket::{is_page_of, may_connect};
use std::alloc::{AllocError, Global};
use std::net::{IpAddr, SocketAddr};
use std::str;

/// The page of an address that is served.
pub(crate) fn page_at(alloc: Global, address: SocketAddr) -> Result<String, AllocError> {
    match address.ip().to_canonical() {
        IpAddr::V4(ip) => format!(in alloc; "http://{ip}"),
        IpAddr::V6(ip) => format!(in alloc; "http://[{ip}]"),
    }
}

// Whether a page of that origin may ask, or a request that names none, as one of no web page.
#[tactic(auto, using(crate::proofs::Texts::is_text, crate::proofs::Texts::is_no_text))]
fn may_page(allowed: &[String], origin: Option<&[u8]>) -> bool
    ensures { result ≡ may_page (map string_bytes allowed.now) (option_copied origin.entry) }
{
    match origin {
        None => true,
        Some(origin) => match str::from_utf8(origin) {
            Ok(origin) => may_connect(origin, allowed),
            Err(_) => false,
        },
    }
}

// Whether a page of that host may connect, by one scheme or the other, or it is a page of the address.
fn may_reach(alloc: Global, here: &str, allowed: &[String], host: &str) -> Result<bool, AllocError>
    ensures { IfOk result (λ may. may ≡ may_reach here.now (map string_bytes allowed.now) host.now) }
{
    let page = format!(in alloc; "http://{host}")?;
    if is_page_of(here, page.as_str()) || may_connect(page.as_str(), allowed) {
        return Ok(true);
    }
    let page = format!(in alloc; "https://{host}")?;
    Ok(may_connect(page.as_str(), allowed))
}

// Whether that host may be asked, or who names none.
#[tactic(auto, using(crate::proofs::Texts::is_text, crate::proofs::Texts::is_no_text))]
fn may_host(
    alloc: Global,
    here: &str,
    allowed: &[String],
    host: Option<&[u8]>,
) -> Result<bool, AllocError>
    ensures { IfOk result (λ may.
        may ≡ may_host here.now (map string_bytes allowed.now) (option_copied host.entry)) }
{
    match host {
        None => Ok(true),
        Some(host) => match str::from_utf8(host) {
            Ok(host) => may_reach(alloc, here, allowed, host),
            Err(_) => Ok(false),
        },
    }
}

/// Whether a request is let in that names that host and that origin, where pages of `here`, which is the
/// address that it came to, are of this machine: a host is let in where one of its own pages may connect,
/// since a browser may leave out the origin of such a page.
///
/// # Errors
///
/// `Host`, and then `Page`, where it isn't; `NoMemory` where memory lacks.
pub(crate) fn judge(
    alloc: Global,
    here: &str,
    allowed: &[String],
    host: Option<&[u8]>,
    origin: Option<&[u8]>,
) -> Result<(), Fault>
    ensures { IsJudged here.now (map string_bytes allowed.now) (option_copied host.entry)
        (option_copied origin.entry) result }
{
    if !may_host(alloc, here, allowed, host)? {
        return Err(Fault::Host);
    }
    if !may_page(allowed, origin) {
        return Err(Fault::Page);
    }
    Ok(())
}

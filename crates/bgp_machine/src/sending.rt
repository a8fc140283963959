//! Sending routes.

ghost use Rattle.std.specs.Prelude.{◌≡◌, ◌⊎◌, ◌++◌, true, false, None, Some, IfOk, IfErr, OnOk, OnErr};
ghost use Rattle.bgp_update.specs.Prelude.{HasNoAs4, narrowed_update, invalid_of, HasUpdateRanges};
ghost use Rattle.bgp_msg.specs.declared.message.Message.TheVariants as message;
ghost use Rattle.bgp_msg.specs.Prelude.{canonical, is_too_long};
ghost use Rattle.bgp_machine.specs.Prelude.{is_mixed, why_unsent, told_octets, is_told_too_long, keepalive_on, IsSent, IsRefused, IsPutFault, IsTellFault};

use crate::action::{Action, Actions};
use crate::send_fault::SendFault;
use crate::session::Session;
use crate::timer::Timer;
use arrayvec::ArrayVec;
use bgp_msg::encode_update;
use bgp_open::Context;
use bgp_update::{Invalid, Update, WriteFault, narrow_update, why_invalid};
use std::alloc::Global;

/// Whether the UPDATE has routes of more than one kind (RFC 7606, section 5.1).
fn is_mixed(update: &Update) -> bool
    ensures { result ≡ is_mixed update.now }
{
    let withdrawn = u8::from(update.withdrawn.len() > 0);
    let nlri = u8::from(update.nlri.len() > 0);
    let reach = u8::from(update.attrs.mp_reach.is_some());
    let unreach = u8::from(update.attrs.mp_unreach.is_some());
    withdrawn + nlri + reach + unreach > 1
}

/// The lowest-numbered reason why an UPDATE isn't sent.
fn why_unsent(context: &Context, update: &Update) -> Option<Invalid>
    ensures { result ≡ why_unsent context.now update.now }
{
    let wide = Context {
        as4: true,
        ..*context
    };
    let why = why_invalid(&wide, update);
    if !is_mixed(update) {
        return why;
    }
    match why {
        None | Some(Invalid::AsZero) | Some(Invalid::Twice) => Some(Invalid::Mixed),
        Some(why) => Some(why),
    }
}

/// Appends an UPDATE that is valid in the context.
fn put(context: &Context, update: &Update, out: &mut Vec<u8>) -> Result<(), SendFault>
    requires { invalid_of context.now update.now ≡ None }
    ensures ok { OnOk result (out.new.items ≡ out.old.items ++ canonical context.now (message.Update update.now)) }
    ensures fits { OnOk result (is_too_long context.now (message.Update update.now) ≡ false) }
    ensures ranges { OnOk result (HasUpdateRanges update.now) }
    ensures fault { IfErr result (IsPutFault (is_too_long context.now (message.Update update.now))) }
    ensures err { OnErr result (out.new.items ≡ out.old.items) }
{
    match encode_update(context, update, out) {
        Ok(()) => Ok(()),
        Err(WriteFault::NotValid(why)) => Err(SendFault::NotValid(why)),
        Err(WriteFault::TooLong) => Err(SendFault::TooLong),
        Err(WriteFault::Memory) => Err(SendFault::Memory),
    }
}

/// Appends an UPDATE that may be sent, in the form for the peer.
fn tell(
    alloc: Global,
    context: &Context,
    update: &Update,
    out: &mut Vec<u8>,
) -> Result<(), SendFault>
    requires { why_unsent context.now update.now ≡ None }
    ensures ok { OnOk result (out.new.items ≡ out.old.items ++ told_octets context.now update.now) }
    ensures fits { OnOk result (is_told_too_long context.now update.now ≡ false) }
    ensures ranges { OnOk result (HasUpdateRanges update.now) }
    ensures fault { IfErr result (IsTellFault context.now.as4 (is_told_too_long context.now update.now)) }
    ensures err { OnErr result (out.new.items ≡ out.old.items) }
{
    if context.as4 {
        return put(context, update, out);
    }
    match narrow_update(alloc, update) {
        Ok(told) => put(context, &told, out),
        Err(_) => Err(SendFault::Memory),
    }
}

impl Session {
    /// Appends the UPDATE as the peer is to be sent it, and answers what is to be done: the Keepalive Timer is
    /// restarted. On a session with 2-octet AS numbers it is narrowed first (RFC 6793, section 4.2.2). The session is
    /// unchanged.
    ///
    /// # Errors
    /// `NotEstablished` where the session isn't; else `NotValid` for the first reason in the order of their numbers, by
    /// the rules of a session with 4-octet AS numbers; else `TooLong`; `Memory` where an allocation failed, on a
    /// session with 2-octet AS numbers also instead of `TooLong`. Nothing is appended then.
    pub fn send(
        &self,
        alloc: Global,
        update: &Update,
        out: &mut Vec<u8>,
    ) -> Result<Actions, SendFault>
        ensures ok { IfOk result (λ actions. IsSent self.now update.now actions.items out.old.items out.new.items) }
        // Each number of what is sent is within its field.
        ensures ranges { OnOk result (HasUpdateRanges update.now) }
        ensures fault { IfErr result (IsRefused self.now update.now) }
        ensures err { OnErr result (out.new.items ≡ out.old.items) }
    {
        let Some(context) = self.standing.established() else {
            return Err(SendFault::NotEstablished);
        };
        if let Some(why) = why_unsent(&context, update) {
            return Err(SendFault::NotValid(why));
        }
        tell(alloc, &context, update, out)?;
        let mut actions = ArrayVec::new();
        if context.hold > 0 {
            actions.push(Action::Arm(Timer::Keepalive, context.hold / 3));
        }
        Ok(actions)
    }
}

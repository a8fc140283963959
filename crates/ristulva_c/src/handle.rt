//! A session, a decoder, a stream or a guard behind a handle.

ghost use Rattle.std.specs.Prelude.{◌≡◌, Option, None, Some, option_map};
ghost use Rattle.bgp_machine.specs.Prelude.{Machine};
ghost use Rattle.bgp_machine.specs.contracts.session.Session.{the_row as session_row};
ghost use Rattle.bgp_msg.specs.Prelude.{Decoding};
ghost use Rattle.bgp_msg.specs.contracts.decoder.Decoder.{the_row as decoder_row};
ghost use Rattle.bgp_wide.specs.Decoder.{Decoding as Streaming};
ghost use Rattle.bgp_wide.specs.contracts.decoder.WideDecoder.{the_row as stream_row};
ghost use Rattle.bgp_guard.specs.Prelude.{Guarding};
ghost use Rattle.bgp_guard.specs.contracts.guard.Guard.{the_row as guard_row};
ghost use Rattle.ristulva_c.specs.Handle.{owned};

pub(crate) mod parts;

use bgp_guard::Guard;
use bgp_machine::Session;
use bgp_msg::Decoder;
use bgp_wide::WideDecoder;
use parts::BoxParts;
use std::alloc::Global;
use std::marker::Model;
use std::mem::replace;
use std::ptr::null_mut;

/// What a handle points to. C never looks into it.
#[repr(C)]
#[derive(Drop)]
pub struct Body {}

/// A session, or none: then it is null.
#[repr(C)]
#[derive(Drop)]
pub struct SessionHandle {
    body: *mut Body,
    /// The session.
    pub ghost value: { Option Machine },
}

impl Model for SessionHandle {
    ghost also_owns = { λ h. owned session_row h.body h.value };
}

impl SessionHandle {
    /// No session.
    fn none() -> SessionHandle
        ensures { result.value ≡ None }
    {
        SessionHandle { body: null_mut() }
    }

    /// A handle made of the parts of a box.
    fn of_parts(parts: BoxParts<Session, Global>) -> SessionHandle
        ensures { result.value ≡ Some parts.value }
    {
        let BoxParts { ptr, alloc: _ } = parts;
        SessionHandle {
            body: ptr as *mut Body,
        }
    }

    /// The parts of the box, where there is one.
    fn into_parts(self, alloc: Global) -> Option<BoxParts<Session, Global>>
        ensures { option_map (λ parts. parts.value) result ≡ self.value }
    {
        let SessionHandle { body } = self;
        if body.is_null() {
            None
        } else {
            Some(BoxParts {
                ptr: body as *mut Session,
                alloc,
            })
        }
    }

    /// Takes the session out.
    pub(crate) fn take(&mut self, alloc: Global) -> Option<Box<Session>>
        ensures session { option_map (λ session. session.value) result ≡ self.old.value }
        ensures none { self.new.value ≡ None }
    {
        let old = replace(self, SessionHandle::none());
        match old.into_parts(alloc) {
            None => None,
            Some(parts) => Some(parts.into_box()),
        }
    }

    /// Puts a session in, where there is none.
    pub(crate) fn put(&mut self, session: Box<Session>)
        requires { self.old.value ≡ None }
        ensures { self.new.value ≡ Some session.value }
    {
        *self = SessionHandle::of_parts(BoxParts::of(session));
    }
}

// The handle may move between threads.
unsafe impl Send for SessionHandle {}

/// A decoder, or none: then it is null.
#[repr(C)]
#[derive(Drop)]
pub struct DecoderHandle {
    body: *mut Body,
    /// The decoder.
    pub ghost value: { Option Decoding },
}

impl Model for DecoderHandle {
    ghost also_owns = { λ h. owned decoder_row h.body h.value };
}

impl DecoderHandle {
    /// No decoder.
    fn none() -> DecoderHandle
        ensures { result.value ≡ None }
    {
        DecoderHandle { body: null_mut() }
    }

    /// A handle made of the parts of a box.
    fn of_parts(parts: BoxParts<Decoder, Global>) -> DecoderHandle
        ensures { result.value ≡ Some parts.value }
    {
        let BoxParts { ptr, alloc: _ } = parts;
        DecoderHandle {
            body: ptr as *mut Body,
        }
    }

    /// The parts of the box, where there is one.
    fn into_parts(self, alloc: Global) -> Option<BoxParts<Decoder, Global>>
        ensures { option_map (λ parts. parts.value) result ≡ self.value }
    {
        let DecoderHandle { body } = self;
        if body.is_null() {
            None
        } else {
            Some(BoxParts {
                ptr: body as *mut Decoder,
                alloc,
            })
        }
    }

    /// Takes the decoder out.
    pub(crate) fn take(&mut self, alloc: Global) -> Option<Box<Decoder>>
        ensures decoder { option_map (λ decoder. decoder.value) result ≡ self.old.value }
        ensures none { self.new.value ≡ None }
    {
        let old = replace(self, DecoderHandle::none());
        match old.into_parts(alloc) {
            None => None,
            Some(parts) => Some(parts.into_box()),
        }
    }

    /// Puts a decoder in, where there is none.
    pub(crate) fn put(&mut self, decoder: Box<Decoder>)
        requires { self.old.value ≡ None }
        ensures { self.new.value ≡ Some decoder.value }
    {
        *self = DecoderHandle::of_parts(BoxParts::of(decoder));
    }
}

// The handle may move between threads.
unsafe impl Send for DecoderHandle {}

/// A stream, or none: then it is null.
#[repr(C)]
#[derive(Drop)]
pub struct StreamHandle {
    body: *mut Body,
    /// The stream.
    pub ghost value: { Option Streaming },
}

impl Model for StreamHandle {
    ghost also_owns = { λ h. owned stream_row h.body h.value };
}

impl StreamHandle {
    /// No stream.
    fn none() -> StreamHandle
        ensures { result.value ≡ None }
    {
        StreamHandle { body: null_mut() }
    }

    /// A handle made of the parts of a box.
    fn of_parts(parts: BoxParts<WideDecoder, Global>) -> StreamHandle
        ensures { result.value ≡ Some parts.value }
    {
        let BoxParts { ptr, alloc: _ } = parts;
        StreamHandle {
            body: ptr as *mut Body,
        }
    }

    /// The parts of the box, where there is one.
    fn into_parts(self, alloc: Global) -> Option<BoxParts<WideDecoder, Global>>
        ensures { option_map (λ parts. parts.value) result ≡ self.value }
    {
        let StreamHandle { body } = self;
        if body.is_null() {
            None
        } else {
            Some(BoxParts {
                ptr: body as *mut WideDecoder,
                alloc,
            })
        }
    }

    /// Takes the stream out.
    pub(crate) fn take(&mut self, alloc: Global) -> Option<Box<WideDecoder>>
        ensures stream { option_map (λ stream. stream.value) result ≡ self.old.value }
        ensures none { self.new.value ≡ None }
    {
        let old = replace(self, StreamHandle::none());
        match old.into_parts(alloc) {
            None => None,
            Some(parts) => Some(parts.into_box()),
        }
    }

    /// Puts a stream in, where there is none.
    pub(crate) fn put(&mut self, stream: Box<WideDecoder>)
        requires { self.old.value ≡ None }
        ensures { self.new.value ≡ Some stream.value }
    {
        *self = StreamHandle::of_parts(BoxParts::of(stream));
    }
}

// The handle may move between threads.
unsafe impl Send for StreamHandle {}

/// A guard, or none: then it is null.
#[repr(C)]
#[derive(Drop)]
pub struct GuardHandle {
    body: *mut Body,
    /// The guard.
    pub ghost value: { Option Guarding },
}

impl Model for GuardHandle {
    ghost also_owns = { λ h. owned guard_row h.body h.value };
}

impl GuardHandle {
    /// No guard.
    fn none() -> GuardHandle
        ensures { result.value ≡ None }
    {
        GuardHandle { body: null_mut() }
    }

    /// A handle made of the parts of a box.
    fn of_parts(parts: BoxParts<Guard, Global>) -> GuardHandle
        ensures { result.value ≡ Some parts.value }
    {
        let BoxParts { ptr, alloc: _ } = parts;
        GuardHandle {
            body: ptr as *mut Body,
        }
    }

    /// The parts of the box, where there is one.
    fn into_parts(self, alloc: Global) -> Option<BoxParts<Guard, Global>>
        ensures { option_map (λ parts. parts.value) result ≡ self.value }
    {
        let GuardHandle { body } = self;
        if body.is_null() {
            None
        } else {
            Some(BoxParts {
                ptr: body as *mut Guard,
                alloc,
            })
        }
    }

    /// Takes the guard out.
    pub(crate) fn take(&mut self, alloc: Global) -> Option<Box<Guard>>
        ensures guard { option_map (λ guard. guard.value) result ≡ self.old.value }
        ensures none { self.new.value ≡ None }
    {
        let old = replace(self, GuardHandle::none());
        match old.into_parts(alloc) {
            None => None,
            Some(parts) => Some(parts.into_box()),
        }
    }

    /// Puts a guard in, where there is none.
    pub(crate) fn put(&mut self, guard: Box<Guard>)
        requires { self.old.value ≡ None }
        ensures { self.new.value ≡ Some guard.value }
    {
        *self = GuardHandle::of_parts(BoxParts::of(guard));
    }
}

// The handle may move between threads.
unsafe impl Send for GuardHandle {}

fn crosses<T: Send>() {}

// Requires those proofs; does nothing.
#[allow(dead_code)]
fn crosses_threads() {
    crosses::<SessionHandle>();
    crosses::<DecoderHandle>();
    crosses::<StreamHandle>();
    crosses::<GuardHandle>();
}

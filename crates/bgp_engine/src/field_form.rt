//! The forms in which `explain` prints.

ghost use Rattle.std.specs.Prelude.{◌≡◌, ◌≤◌, ◌++◌, length, OnOk};
ghost use Rattle.bgp_engine.specs.Below.{string_bytes};

use crate::form::{Json, Lines};
use bgp_fields::Fault;
use bgp_frame::End;
use bgp_msg::OutcomeView;
use bgp_open::Context;
use bgp_refresh::RefreshView;
use bgp_text::{
    Identified, put_end, put_end_json, put_explained, put_explained_json, put_explained_refresh,
    put_explained_refresh_json, put_path_explained, put_path_explained_json,
};
use std::alloc::{AllocError, Global};

/// How a message with its fields and the end of a stream are printed.
pub(crate) trait FieldForm {
    ghost use Rattle.std.specs.Prelude.{◌≡◌, ◌≤◌, ◌++◌, length, OnOk};
    ghost use Rattle.bgp_engine.specs.Below.{string_bytes, outcome_value, refresh_value};
    ghost use Rattle.bgp_engine.specs.Explain.{Form};
    ghost use Rattle.bgp_paths.specs.Prelude.{path_numbers, shifted};

    /// Their texts.
    ghost form: { Form };

    /// Adds the text of a message of this length in a context, or of a header's fault, of which these octets are held.
    fn put_message(
        &self,
        alloc: Global,
        text: &mut String,
        ctx: &Context,
        place: u64,
        len: u16,
        octets: &[u8],
        fault: Option<Fault>,
        outcome: &OutcomeView<'_>,
    ) -> Result<(), AllocError>
        requires { length octets.now ≤ 4096 }
        ensures { OnOk result (string_bytes text.new ≡ string_bytes text.old ++ form.message ctx.now place len octets.now fault (outcome_value outcome.now)) };

    /// Adds the text of an UPDATE of this length whose routes have path identifiers.
    fn put_identified(
        &self,
        alloc: Global,
        text: &mut String,
        ctx: &Context,
        place: u64,
        len: u16,
        update: &Identified<'_>,
        outcome: &OutcomeView<'_>,
    ) -> Result<(), AllocError>
        requires { length update.now.octets.now ≤ 4096 }
        ensures { OnOk result (string_bytes text.new ≡ string_bytes text.old
            ++ form.identified ctx.now update.now.families update.now.octets.now update.now.fault (path_numbers update.now.runs) (shifted update.now.shifts) place len (outcome_value outcome.now)) };

    /// Adds the text of a ROUTE-REFRESH that is accepted, which has these octets.
    fn put_refresh(
        &self,
        alloc: Global,
        text: &mut String,
        ctx: &Context,
        place: u64,
        len: u16,
        octets: &[u8],
        refresh: &RefreshView<'_>,
    ) -> Result<(), AllocError>
        requires { length octets.now ≤ 4096 }
        ensures { OnOk result (string_bytes text.new ≡ string_bytes text.old ++ form.refresh ctx.now place len octets.now (refresh_value refresh.now)) };

    /// Adds the text of the end.
    fn put_last(&self, text: &mut String, end: End) -> Result<(), AllocError>
        ensures { OnOk result (string_bytes text.new ≡ string_bytes text.old ++ form.end end) };
}

impl FieldForm for Lines {
    ghost use Rattle.bgp_engine.specs.Explain.{in_lines};

    ghost form = { in_lines };

    fn put_message(
        &self,
        alloc: Global,
        text: &mut String,
        ctx: &Context,
        place: u64,
        len: u16,
        octets: &[u8],
        fault: Option<Fault>,
        outcome: &OutcomeView<'_>,
    ) -> Result<(), AllocError> {
        put_explained(alloc, text, ctx, place, len, octets, fault, outcome)
    }

    fn put_identified(
        &self,
        alloc: Global,
        text: &mut String,
        ctx: &Context,
        place: u64,
        len: u16,
        update: &Identified<'_>,
        outcome: &OutcomeView<'_>,
    ) -> Result<(), AllocError> {
        put_path_explained(alloc, text, ctx, place, len, update, outcome)
    }

    fn put_refresh(
        &self,
        _alloc: Global,
        text: &mut String,
        ctx: &Context,
        place: u64,
        len: u16,
        octets: &[u8],
        refresh: &RefreshView<'_>,
    ) -> Result<(), AllocError> {
        put_explained_refresh(text, ctx, place, len, octets, refresh)
    }

    fn put_last(&self, text: &mut String, end: End) -> Result<(), AllocError> {
        put_end(text, end)
    }
}

impl FieldForm for Json {
    ghost use Rattle.bgp_engine.specs.Explain.{in_json};

    ghost form = { in_json };

    fn put_message(
        &self,
        alloc: Global,
        text: &mut String,
        ctx: &Context,
        place: u64,
        len: u16,
        octets: &[u8],
        fault: Option<Fault>,
        outcome: &OutcomeView<'_>,
    ) -> Result<(), AllocError> {
        put_explained_json(alloc, text, ctx, place, len, octets, fault, outcome)
    }

    fn put_identified(
        &self,
        alloc: Global,
        text: &mut String,
        ctx: &Context,
        place: u64,
        len: u16,
        update: &Identified<'_>,
        outcome: &OutcomeView<'_>,
    ) -> Result<(), AllocError> {
        put_path_explained_json(alloc, text, ctx, place, len, update, outcome)
    }

    fn put_refresh(
        &self,
        alloc: Global,
        text: &mut String,
        ctx: &Context,
        place: u64,
        len: u16,
        octets: &[u8],
        refresh: &RefreshView<'_>,
    ) -> Result<(), AllocError> {
        put_explained_refresh_json(alloc, text, ctx, place, len, octets, refresh)
    }

    fn put_last(&self, text: &mut String, end: End) -> Result<(), AllocError> {
        put_end_json(text, end)
    }
}

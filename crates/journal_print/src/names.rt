//! The names of zones and callers, and the arcs between zones.

ghost use Rattle.std.specs.Prelude.{◌≡◌, ◌<◌, ◌++◌, length, OnOk};
ghost use Rattle.market_model.specs.Naming.{HasZone, HasBorder, IsNamed};
ghost use Rattle.journal_print.specs.Json.{quote};
ghost use Rattle.journal_print.specs.Line as printed;

use market_model::Setup;
use std::alloc::AllocError;
use zone_graph::Arc;

/// The name of a zone, by its number.
pub(crate) fn zone_name(setup: &Setup, zone: u32) -> &[u8]
    requires { HasZone setup.now zone }
    ensures { result.now ≡ printed.zone_name setup.now zone }
{
    setup.zones.get(zone as usize).unwrap().bytes()
}

/// The name of a caller, by its number.
pub(crate) fn caller_name(setup: &Setup, caller: u32) -> &[u8]
    requires { caller < length setup.now.callers }
    ensures { result.now ≡ printed.caller_name setup.now caller }
{
    setup.callers.get(caller as usize).unwrap().name.bytes()
}

/// Writes an arc as the names of the zones that it leads from and to.
pub(crate) fn write_arc(setup: &Setup, arc: Arc, out: &mut Vec<u8>) -> Result<(), AllocError>
    requires named { IsNamed setup.now }
    requires known { HasBorder setup.now arc.border }
    ensures { OnOk result (out.new.items ≡ out.old.items ++ quote (printed.arc_text setup.now arc)) }
{
    let ends = *setup.borders.get(arc.border as usize).unwrap();
    if arc.forward {
        write_way(setup, ends.0, ends.1, out)
    } else {
        write_way(setup, ends.1, ends.0, out)
    }
}

// The way from one zone to another.
#[tactic(auto, unfolding(crate::specs::Json::quote))]
fn write_way(setup: &Setup, from: u32, to: u32, out: &mut Vec<u8>) -> Result<(), AllocError>
    requires start { HasZone setup.now from }
    requires end { HasZone setup.now to }
    ensures { OnOk result (out.new.items ≡ out.old.items ++ quote (printed.way_text setup.now from to)) }
{
    out.push(b'"')?;
    out.extend_from_slice(zone_name(setup, from))?;
    out.push(b'>')?;
    out.extend_from_slice(zone_name(setup, to))?;
    out.push(b'"')?;
    Ok(())
}

// A function for each call, over the words after the first.
ghost use Rattle.script.specs.Reading.{open_rest, gate_rest, output_rest, entry_rest, limits_rest, append_rest, hint_rest, store_rest, build_rest, late_rest, distance_rest, equations_rest};
ghost use Rattle.script.specs.Taking.{Second, Reads};

use crate::words::Words;
use crate::{
    AppendEdit, BuildCall, Call, DistanceCall, EntryEdit, EquationsCall, GateEdit, HintCall,
    LateCall, LimitsEdit, Opening, OutputEdit,
};

// `open HEX matrix HEX G D A` or `open HEX table HEX G D A`.
// What they share is in `Words`; each has its own words and fields.
// `Second` is asked and no ghost field: only `open`, `build`, `late`, `distance` and `equations` need it.
pub(crate) fn read_open(mut words: Words) -> Option<Call>
    requires { Second words }
    ensures { Reads words.entry open_rest result }
{
    let bytes = words.hex()?;
    let is_matrix = words.is_matrix()?;
    let target = words.hex()?;
    let gates = words.limit()?;
    let depth = words.limit()?;
    let ands = words.limit()?;
    let opening = Opening {
        bytes,
        target,
        gates,
        depth,
        ands,
    };
    words.finish(if is_matrix {
        Call::OpenMatrix(opening)
    } else {
        Call::OpenTable(opening)
    })
}

// `gate K KIND A B`.
pub(crate) fn read_gate(mut words: Words) -> Option<Call>
    ensures { Reads words.entry gate_rest result }
{
    let k = words.number()?;
    let kind = words.number()?;
    let a = words.number()?;
    let b = words.number()?;
    words.finish(Call::Gate(GateEdit { k, kind, a, b }))
}

// `output J LINE`.
pub(crate) fn read_output(mut words: Words) -> Option<Call>
    ensures { Reads words.entry output_rest result }
{
    let j = words.number()?;
    let line = words.number()?;
    words.finish(Call::Output(OutputEdit { j, line }))
}

// `entry I VALUE` or `entry I VALUE CONSTANT`.
pub(crate) fn read_entry(mut words: Words) -> Option<Call>
    ensures { Reads words.entry entry_rest result }
{
    let i = words.number()?;
    let value = words.number()?;
    let constant = words.number_or_zero()?;
    words.finish(Call::Entry(EntryEdit { i, value, constant }))
}

// `limits G D A`.
pub(crate) fn read_limits(mut words: Words) -> Option<Call>
    ensures { Reads words.entry limits_rest result }
{
    let gates = words.limit()?;
    let depth = words.limit()?;
    let ands = words.limit()?;
    words.finish(Call::Limits(LimitsEdit { gates, depth, ands }))
}

// `append KIND A B`.
pub(crate) fn read_append(mut words: Words) -> Option<Call>
    ensures { Reads words.entry append_rest result }
{
    let kind = words.number()?;
    let a = words.number()?;
    let b = words.number()?;
    words.finish(Call::Append(AppendEdit { kind, a, b }))
}

// `hint J D`.
pub(crate) fn read_hint(mut words: Words) -> Option<Call>
    ensures { Reads words.entry hint_rest result }
{
    let row = words.number()?;
    let d = words.number()?;
    words.finish(Call::Hint(HintCall { row, d }))
}

// `store ROOM`.
pub(crate) fn read_store(mut words: Words) -> Option<Call>
    ensures { Reads words.entry store_rest result }
{
    let room = words.number()?;
    words.finish(Call::Store(room))
}

// `build N ROWSHEX D ROOM`.
pub(crate) fn read_build(mut words: Words) -> Option<Call>
    requires { Second words }
    ensures { Reads words.entry build_rest result }
{
    let n = words.number()?;
    let rows = words.hex()?;
    let d = words.number()?;
    let room = words.number()?;
    words.finish(Call::Build(BuildCall { n, rows, d, room }))
}

// `late N ARRIVALSHEX ROWSHEX LIMITSHEX ROOM`.
pub(crate) fn read_late(mut words: Words) -> Option<Call>
    requires { Second words }
    ensures { Reads words.entry late_rest result }
{
    let n = words.number()?;
    let arrivals = words.hex()?;
    let rows = words.hex()?;
    let limits = words.hex()?;
    let room = words.number()?;
    words.finish(Call::Late(LateCall {
        n,
        arrivals,
        rows,
        limits,
        room,
    }))
}

// `distance N MASKSHEX DEPTHSHEX T D`.
pub(crate) fn read_distance(mut words: Words) -> Option<Call>
    requires { Second words }
    ensures { Reads words.entry distance_rest result }
{
    let n = words.number()?;
    let masks = words.hex()?;
    let depths = words.hex()?;
    let target = words.number()?;
    let d = words.number()?;
    words.finish(Call::Distance(DistanceCall {
        n,
        masks,
        depths,
        target,
        d,
    }))
}

// `equations HEX ROOM`.
pub(crate) fn read_equations(mut words: Words) -> Option<Call>
    requires { Second words }
    ensures { Reads words.entry equations_rest result }
{
    let file = words.hex()?;
    let room = words.number()?;
    words.finish(Call::Equations(EquationsCall { file, room }))
}

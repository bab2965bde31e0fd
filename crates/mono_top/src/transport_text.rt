// The texts of `transport`: a plan, or what falls short.
ghost use Rattle.std.specs.Prelude.{◌≡◌, ◌+◌, ◌<◌, ◌++◌, ◌∷◌, [], length, codes, IfOk, OnOk};
ghost use Rattle.theory.specs.Network.{«at»};
ghost use Rattle.model_text.specs.Printed.{printed_line};
ghost use Rattle.cert_text.specs.CertificateText.{texts_below};
ghost use Rattle.transport_front.specs.Plan.{outside};
ghost use Rattle.mono_top.specs.Transports.{headed, plant_line, lane_line, plant_named, shop_named, flows_text, short_text};

use model_text::{append_number, append_word};
use outside_io::ByteText;
use std::alloc::{AllocError, Global};
use transport_front::Table;

/// The cost, each plant with its total and each lane with its amount. The flows are first those of the places, then those of
/// the lanes.
pub(crate) fn print_plan(
    alloc: Global,
    t: &Table,
    flows: &[i64],
    cost: i128,
) -> Result<ByteText, AllocError>
    requires { length flows.now ≡ length t.now.table.places + length t.now.table.lanes }
    ensures { IfOk result (λ text. text ≡ flows_text t.now.table flows.now cost) }
{
    let mut out = Vec::new(alloc);
    append_head(&mut out, b"cost", cost)?;
    append_plants(&mut out, t, flows)?;
    append_lanes(&mut out, t, flows)?;
    Ok(ByteText::of_vec(out))
}

/// The shortage, and the plants and the shops outside the side.
pub(crate) fn print_short(
    alloc: Global,
    t: &Table,
    side: &[bool],
    short: i128,
) -> Result<ByteText, AllocError>
    requires { length side.now ≡ length t.now.table.places + 1 }
    ensures { IfOk result (λ text. text ≡ short_text t.now.table (outside side.now) short) }
{
    let mut out = Vec::new(alloc);
    append_head(&mut out, b"short", short)?;
    append_named_plants(&mut out, t, side)?;
    append_named_shops(&mut out, t, side)?;
    Ok(ByteText::of_vec(out))
}

fn append_head(out: &mut Vec<u8>, word: &[u8], number: i128) -> Result<(), AllocError>
    ensures { OnOk result (out.new.items ≡ out.old.items ++ headed word.now number) }
{
    out.extend_from_slice(b"transport")?;
    append_word(out, word)?;
    append_number(out, number)?;
    out.push(b'\n')?;
    Ok(())
}

fn append_plants(out: &mut Vec<u8>, t: &Table, flows: &[i64]) -> Result<(), AllocError>
    requires { length flows.now ≡ length t.now.table.places + length t.now.table.lanes }
    ensures { OnOk result (out.new.items ≡ out.old.items
        ++ texts_below (length t.now.table.places) (λ i. plant_line t.now.table i («at» flows.now i))) }
{
    for i in 0..t.places() {
        append_plant(out, t, i, flows)?;
    }
    Ok(())
}

fn append_plant(out: &mut Vec<u8>, t: &Table, i: u32, flows: &[i64]) -> Result<(), AllocError>
    requires there { i < length t.now.table.places }
    requires each { length flows.now ≡ length t.now.table.places + length t.now.table.lanes }
    ensures { OnOk result (out.new.items ≡ out.old.items ++ plant_line t.now.table i («at» flows.now i)) }
{
    if t.is_plant(i) {
        out.extend_from_slice(b"plant")?;
        append_word(out, t.place_name(i))?;
        append_number(out, i128::from(flows[i as usize]))?;
        out.push(b'\n')?;
    }
    Ok(())
}

fn append_lanes(out: &mut Vec<u8>, t: &Table, flows: &[i64]) -> Result<(), AllocError>
    requires { length flows.now ≡ length t.now.table.places + length t.now.table.lanes }
    ensures { OnOk result (out.new.items ≡ out.old.items
        ++ texts_below (length t.now.table.lanes) (λ j. lane_line t.now.table j («at» flows.now (length t.now.table.places + j)))) }
{
    for j in 0..t.lanes() {
        append_lane(out, t, j, flows)?;
    }
    Ok(())
}

fn append_lane(out: &mut Vec<u8>, t: &Table, j: u32, flows: &[i64]) -> Result<(), AllocError>
    requires there { j < length t.now.table.lanes }
    requires each { length flows.now ≡ length t.now.table.places + length t.now.table.lanes }
    ensures { OnOk result (out.new.items ≡ out.old.items
        ++ lane_line t.now.table j («at» flows.now (length t.now.table.places + j))) }
{
    let behind = t.places() + j;
    out.extend_from_slice(b"lane")?;
    append_word(out, t.lane_name(j))?;
    append_number(out, i128::from(flows[behind as usize]))?;
    out.push(b'\n')?;
    Ok(())
}

fn append_named_plants(out: &mut Vec<u8>, t: &Table, side: &[bool]) -> Result<(), AllocError>
    requires { length side.now ≡ length t.now.table.places + 1 }
    ensures { OnOk result (out.new.items ≡ out.old.items
        ++ texts_below (length t.now.table.places) (plant_named t.now.table (outside side.now))) }
{
    for i in 0..t.places() {
        append_named_plant(out, t, side, i)?;
    }
    Ok(())
}

fn append_named_shops(out: &mut Vec<u8>, t: &Table, side: &[bool]) -> Result<(), AllocError>
    requires { length side.now ≡ length t.now.table.places + 1 }
    ensures { OnOk result (out.new.items ≡ out.old.items
        ++ texts_below (length t.now.table.places) (shop_named t.now.table (outside side.now))) }
{
    for i in 0..t.places() {
        append_named_shop(out, t, side, i)?;
    }
    Ok(())
}

fn append_named_plant(out: &mut Vec<u8>, t: &Table, side: &[bool], i: u32) -> Result<(), AllocError>
    requires there { i < length t.now.table.places }
    requires each { length side.now ≡ length t.now.table.places + 1 }
    ensures { OnOk result (out.new.items ≡ out.old.items ++ plant_named t.now.table (outside side.now) i) }
{
    if !side[i as usize + 1] && t.is_plant(i) {
        append_name(out, b"plant", t.place_name(i))?;
    }
    Ok(())
}

fn append_named_shop(out: &mut Vec<u8>, t: &Table, side: &[bool], i: u32) -> Result<(), AllocError>
    requires there { i < length t.now.table.places }
    requires each { length side.now ≡ length t.now.table.places + 1 }
    ensures { OnOk result (out.new.items ≡ out.old.items ++ shop_named t.now.table (outside side.now) i) }
{
    if !side[i as usize + 1] && !t.is_plant(i) {
        append_name(out, b"shop", t.place_name(i))?;
    }
    Ok(())
}

fn append_name(out: &mut Vec<u8>, keyword: &[u8], name: &[u8]) -> Result<(), AllocError>
    ensures { OnOk result (out.new.items ≡ out.old.items ++ printed_line keyword.now (name.now ∷ [])) }
{
    out.extend_from_slice(keyword)?;
    append_word(out, name)?;
    out.push(b'\n')?;
    Ok(())
}

// The first four lines of a sheet, each of which makes a domain.
ghost use Rattle.sheet.specs.Forms.{bus_form, gateway_form, radio_form};
ghost use Rattle.sheet.specs.Heads.{bus_limits, gateway_limits, radio_limits, DomainRead, BankRead};
ghost use Rattle.bus.specs.Buses as B;
ghost use Rattle.gateway.specs.Gateways as G;
ghost use Rattle.radio.specs.Radios as R;

use crate::fault::{SheetFault, on_line};
use crate::kind::Kind;
use crate::line::read_line;
use bus::bus::Bus;
use domains::pair::Pair;
use gateway::gateway::Gateway;
use radio::radio::Radio;

// Two buses, the gateway between them, and the radio link.
pub type Bank = Pair<Pair<Bus, Bus>, Pair<Gateway, Radio>>;

fn read_bus(text: &[u8], line: u16) -> Result<(Bus, &[u8]), SheetFault>
    ensures { DomainRead bus_form B.figures bus_limits line text.now result }
{
    let ([arbitration, bit], rest) = read_line(text, line, Kind::Bus, &[8, 8])?;
    let made = Bus::new(u64::from(arbitration), u64::from(bit));
    Ok((on_line(line, made)?, rest))
}

fn read_gateway(text: &[u8], line: u16) -> Result<(Gateway, &[u8]), SheetFault>
    ensures { DomainRead gateway_form G.figures gateway_limits line text.now result }
{
    let ([fixed, byte], rest) = read_line(text, line, Kind::Gateway, &[8, 8])?;
    let made = Gateway::new(u64::from(fixed), u64::from(byte));
    Ok((on_line(line, made)?, rest))
}

fn read_radio(text: &[u8], line: u16) -> Result<(Radio, &[u8]), SheetFault>
    ensures { DomainRead radio_form R.figures radio_limits line text.now result }
{
    let ([byte], rest) = read_line(text, line, Kind::Radio, &[8])?;
    let made = Radio::new(u64::from(byte));
    Ok((on_line(line, made)?, rest))
}

// The bank of the first four lines, with the text after them.
pub(crate) fn read_bank(text: &[u8]) -> Result<(Bank, &[u8]), SheetFault>
    ensures { BankRead text.now result }
{
    let (first, text) = read_bus(text, 1)?;
    let (second, text) = read_bus(text, 2)?;
    let (gateway, text) = read_gateway(text, 3)?;
    let (radio, text) = read_radio(text, 4)?;
    let bank = Pair::new(Pair::new(first, second), Pair::new(gateway, radio));
    Ok((bank, text))
}

// A small survey truck: its bank, and the signals of its control boxes.
use bus::bus::Bus;
use domains::fault::DomainFault;
use domains::pair::Pair;
use gateway::gateway::Gateway;
use radio::radio::Radio;
use signals::signal::Signal;

// Two buses, the gateway between them, and the link to the van.
pub type Bank = Pair<Pair<Bus, Bus>, Pair<Gateway, Radio>>;

pub fn bank() -> Result<Bank, DomainFault> {
    let drive = Bus::new(2_000, 500)?;
    let survey = Bus::new(2_000, 500)?;
    let gateway = Gateway::new(20_000, 100)?;
    let link = Radio::new(50_000)?;
    Ok(Pair::new(Pair::new(drive, survey), Pair::new(gateway, link)))
}

pub const DOMAIN_NAMES: [&str; 4] = ["drive bus", "survey bus", "gateway", "radio"];

const DRIVE: u8 = 1;

const SURVEY: u8 = 2;

const GATEWAY: u8 = 4;

const LINK: u8 = 8;

const BOTH: u8 = DRIVE | SURVEY | GATEWAY;

const EVERYWHERE: u8 = BOTH | LINK;

// A signal as a line of a table: name, sender, size, period, deadline, and where it has to go. With the names of the
// fields it would be eight lines.
#[derive(Clone, Copy)]
pub struct Line(pub u16, pub u8, pub u8, pub u64, pub u64, pub u8);

pub const SIGNALS: [Line; 13] = [
    // The drive: wheel speed, steering angle, engine load.
    Line(101, 1, 2, 10_000_000, 10_000_000, DRIVE),
    Line(102, 1, 2, 10_000_000, 10_000_000, DRIVE),
    Line(103, 1, 4, 20_000_000, 20_000_000, BOTH),
    // The camera: tilt, a line of the profile, depth.
    Line(201, 2, 4, 20_000_000, 15_000_000, SURVEY),
    Line(202, 2, 48, 50_000_000, 50_000_000, SURVEY),
    Line(203, 2, 4, 20_000_000, 20_000_000, EVERYWHERE),
    // The drum: cable length, cable force.
    Line(301, 3, 4, 20_000_000, 20_000_000, SURVEY),
    Line(302, 3, 2, 10_000_000, 10_000_000, SURVEY),
    // The pump: pressure, valve.
    Line(401, 4, 2, 5_000_000, 5_000_000, DRIVE),
    Line(402, 4, 1, 100_000_000, 100_000_000, DRIVE),
    // The lights, and the air: gas, water level.
    Line(501, 5, 1, 100_000_000, 100_000_000, SURVEY),
    Line(601, 6, 6, 200_000_000, 100_000_000, EVERYWHERE),
    Line(602, 6, 2, 500_000_000, 500_000_000, EVERYWHERE),
];

// Two scanners more, each of which wants the survey bus at once.
pub const SCANNERS: [Line; 2] = [
    Line(701, 7, 64, 2_000_000, 600_000, SURVEY),
    Line(801, 8, 64, 2_000_000, 600_000, SURVEY),
];

impl From<Line> for Signal {
    fn from(line: Line) -> Signal {
        let Line(name, sender, size, period, deadline, set) = line;
        Signal {
            name,
            sender,
            size,
            period,
            deadline,
            set,
        }
    }
}

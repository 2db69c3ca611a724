// The figures that a domain is made from, at both sides of each limit.
use bus::bus::Bus;
use domains::fault::DomainFault;
use gateway::gateway::Gateway;
use radio::radio::Radio;

#[test]
fn limits_of_figures(rt: HostRuntime) {
    assert_eq!(rt; Gateway::new(1_000, 0).err(), None);
    assert_eq!(rt; Gateway::new(100_000, 1_000).err(), None);
    assert_eq!(rt; Gateway::new(999, 0).err(), Some(DomainFault::FirstFigure));
    assert_eq!(rt;
        Gateway::new(100_001, 1_001).err(),
        Some(DomainFault::FirstFigure)
    );
    assert_eq!(rt;
        Gateway::new(100_000, 1_001).err(),
        Some(DomainFault::SecondFigure)
    );
    assert_eq!(rt; Radio::new(9_999).err(), Some(DomainFault::FirstFigure));
    assert_eq!(rt; Radio::new(10_000).err(), None);
    assert_eq!(rt; Radio::new(200_000).err(), None);
    assert_eq!(rt; Radio::new(200_001).err(), Some(DomainFault::FirstFigure));
    assert_eq!(rt; DomainFault::FirstFigure.number(), 1);
    assert_eq!(rt; DomainFault::SecondFigure.number(), 1);
}

#[test]
fn limits_of_a_bus(rt: HostRuntime) {
    assert_eq!(rt; Bus::new(1_000, 125).err(), None);
    assert_eq!(rt; Bus::new(8_000, 8_000).err(), None);
    assert_eq!(rt; Bus::new(999, 125).err(), Some(DomainFault::FirstFigure));
    assert_eq!(rt;
        Bus::new(8_001, 9_000).err(),
        Some(DomainFault::FirstFigure)
    );
    assert_eq!(rt; Bus::new(1_000, 124).err(), Some(DomainFault::SecondFigure));
    assert_eq!(rt;
        Bus::new(1_000, 1_001).err(),
        Some(DomainFault::SecondFigure)
    );
}

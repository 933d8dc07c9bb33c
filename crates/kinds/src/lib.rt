#![tactic(auto)]

mod amount;
mod charge;
mod kind;
mod number;
mod pulses;

pub use amount::Amount;
pub use charge::Charge;
pub use kind::Kind;
pub use number::Number;
pub use pulses::Pulses;

#[cfg(test)]
mod tests {
    use super::*;
    use semiring::Semiring;
    use std::test::Fail;

    #[test]
    fn product_up_to_the_limit(rt: HostRuntime) {
        let most = <Pulses as Semiring>::read(1_000_000_000);
        let zero = <Pulses as Semiring>::read(0);
        let one = <Pulses as Semiring>::read(1);
        assert_eq!(rt; <Pulses as Semiring>::product(most, zero), Ok(most));
        assert_eq!(rt;
            <Pulses as Semiring>::product(most, one).map_err(Kind::number),
            Err(1)
        );
    }

    #[test]
    fn numbers_up_to_the_limit(rt: HostRuntime) {
        let most = <Pulses as Semiring>::read(1_000_000_000);
        assert_eq!(rt; Pulses::new(1_000_000_000), Some(most));
        assert_eq!(rt; most.number(), Some(1_000_000_000));
        assert_eq!(rt; Pulses::new(1_000_000_001), None);
    }

    #[test]
    fn edges_up_to_the_edge_limit(rt: HostRuntime) {
        assert!(rt; <Pulses as Semiring>::is_edge(<Pulses as Semiring>::read(1_000_000)));
        assert!(rt; !<Pulses as Semiring>::is_edge(<Pulses as Semiring>::read(1_000_001)));
        assert!(rt; <Pulses as Semiring>::is_edge(<Pulses as Semiring>::none()));
    }

    #[test]
    fn none_is_no_number(rt: HostRuntime) {
        let none = <Pulses as Semiring>::none();
        let five = <Pulses as Semiring>::read(5);
        assert_eq!(rt; none.number(), None);
        assert_eq!(rt; <Pulses as Semiring>::sum(none, five), five);
        assert_eq!(rt; <Pulses as Semiring>::product(five, none), Ok(none));
        assert_eq!(rt;
            <Pulses as Semiring>::star(none),
            Ok(<Pulses as Semiring>::unit())
        );
        assert_eq!(rt;
            <Pulses as Semiring>::read(<Pulses as Semiring>::write(none)),
            none
        );
    }

    #[test]
    fn printed(rt: HostRuntime) -> Result<(), Fail> {
        let five = <Pulses as Semiring>::read(5);
        let none = <Pulses as Semiring>::none();
        let text = format!(in rt.alloc(); "{five} {none}")?;
        assert_eq!(rt; text.as_str(), "5 -");
        Ok(())
    }

    #[test]
    fn charge_product_up_to_both_limits(rt: HostRuntime) {
        let most = <Charge as Semiring>::read(1_000_000_000);
        let least = <Charge as Semiring>::read(-1_000_000_000);
        let zero = <Charge as Semiring>::read(0);
        assert_eq!(rt; <Charge as Semiring>::product(most, zero), Ok(most));
        assert_eq!(rt; <Charge as Semiring>::product(least, zero), Ok(least));
        assert_eq!(rt; <Charge as Semiring>::product(most, least), Ok(zero));
        assert_eq!(rt;
            <Charge as Semiring>::product(most, <Charge as Semiring>::read(1)).map_err(
                Kind::number
            ),
            Err(2)
        );
        assert_eq!(rt;
            <Charge as Semiring>::product(least, <Charge as Semiring>::read(-1)).map_err(
                Kind::number
            ),
            Err(2)
        );
    }

    #[test]
    fn charge_star_refused_below_zero(rt: HostRuntime) {
        let unit = <Charge as Semiring>::unit();
        assert_eq!(rt;
            <Charge as Semiring>::star(<Charge as Semiring>::read(-1)).map_err(Kind::number),
            Err(2)
        );
        assert_eq!(rt;
            <Charge as Semiring>::star(<Charge as Semiring>::read(0)),
            Ok(unit)
        );
        assert_eq!(rt;
            <Charge as Semiring>::star(<Charge as Semiring>::read(5)),
            Ok(unit)
        );
        assert_eq!(rt;
            <Charge as Semiring>::star(<Charge as Semiring>::none()),
            Ok(unit)
        );
    }

    #[test]
    fn charge_numbers_up_to_both_limits(rt: HostRuntime) {
        let least = <Charge as Semiring>::read(-1_000_000_000);
        assert_eq!(rt; Charge::new(-1_000_000_000), Some(least));
        assert_eq!(rt; least.number(), Some(-1_000_000_000));
        assert_eq!(rt; Charge::new(-1_000_000_001), None);
        assert_eq!(rt; Charge::new(1_000_000_001), None);
    }

    #[test]
    fn charge_edges_up_to_both_edge_limits(rt: HostRuntime) {
        assert!(rt; <Charge as Semiring>::is_edge(<Charge as Semiring>::read(1_000_000)));
        assert!(rt; <Charge as Semiring>::is_edge(<Charge as Semiring>::read(-1_000_000)));
        assert!(rt; !<Charge as Semiring>::is_edge(<Charge as Semiring>::read(1_000_001)));
        assert!(rt; !<Charge as Semiring>::is_edge(<Charge as Semiring>::read(-1_000_001)));
        assert!(rt; <Charge as Semiring>::is_edge(<Charge as Semiring>::none()));
    }

    #[test]
    fn charge_none_is_no_number(rt: HostRuntime) {
        let none = <Charge as Semiring>::none();
        let below = <Charge as Semiring>::read(-5);
        assert_eq!(rt; none.number(), None);
        assert_eq!(rt; <Charge as Semiring>::sum(none, below), below);
        assert_eq!(rt; <Charge as Semiring>::product(below, none), Ok(none));
        assert_eq!(rt; <Charge as Semiring>::read(-1_000_000_001), none);
        assert_eq!(rt; <Charge as Semiring>::write(none), 1_000_000_001);
    }

    #[test]
    fn charge_printed(rt: HostRuntime) -> Result<(), Fail> {
        let below = <Charge as Semiring>::read(-5);
        let above = <Charge as Semiring>::read(7);
        let none = <Charge as Semiring>::none();
        let text = format!(in rt.alloc(); "{below} {above} {none}")?;
        assert_eq!(rt; text.as_str(), "-5 7 -");
        Ok(())
    }

    #[test]
    fn debug_names_the_kind(rt: HostRuntime) -> Result<(), Fail> {
        let five = <Pulses as Semiring>::read(5);
        let below = <Charge as Semiring>::read(-5);
        let text = format!(in rt.alloc(); "{five:?} {below:?}")?;
        assert_eq!(rt; text.as_str(), "Pulses { number: 5 } Charge { number: -5 }");
        Ok(())
    }
}

//! Calls that allocate, with ample memory.

use play_types::{Place, Spec, Still};
use route_graph::Routes;
use std::test::Fail;

#[test]
fn a_route_shows_what_its_layer_showed_a_tick_before(rt: HostRuntime) -> Result<(), Fail> {
    let place = Place::new(2, 9_999).ok_or("a place")?;
    let mut routes = Routes::new(rt.alloc(), 2)?;
    routes.begin_tick();
    routes.show(place, Spec::Clip(3), 4);
    assert_eq!(rt; routes.still(Spec::RouteLayer(place), 0), Still::Nothing);
    routes.begin_tick();
    assert_eq!(rt;
        routes.still(Spec::RouteLayer(place), 0),
        Still::Frame(3, 4)
    );
    Ok(())
}

// What a server finds as it looks round the ring past the crashes that it has noticed: its next, whom it stands in for, and whom a mask covers.
// The definitions are those of the crate circle, for numbers of any size.
// Size, set and server are passed apart: a caller asks one or two things of them, so a struct of the three would only be packed to be taken apart again.
#![tactic(auto)]

ghost use Rattle.std.specs.Prelude.{◌≡◌, ◌^◌, ◌<◌};
ghost use Rattle.circle.specs.Circle.{after, covers, dist, next, stands_in};
ghost use Rattle.servers.specs.Sets.{has};

use servers::ServerSet;

// The server so many steps after another, where its number fits.
fn after(size: usize, server: usize, steps: usize) -> usize
    requires { after size server steps < 2 ^ 64 }
    ensures { result ≡ after size server steps }
{
    if size < steps {
        return server + (steps - size);
    }
    let steps_back = size - steps;
    if server < steps_back {
        server + steps
    } else {
        server - steps_back
    }
}

// The steps forward from one server to another.
fn distance(size: usize, from: usize, to: usize) -> usize
    ensures { result ≡ dist size from to }
{
    if from <= to {
        to - from
    } else {
        size.saturating_sub(from - to)
    }
}

// The first server after this one whose crash it has not noticed, or itself if there is none.
pub fn next_of(size: usize, noticed: ServerSet, server: usize) -> usize
    ensures is { result ≡ next size (has noticed.bits) server }
    ensures within { server < size → result < size }
{
    (1..size)
        .map(|steps| after(size, server, steps))
        .find(|other| !noticed.contains(*other))
        .unwrap_or(server)
}

// Whether the server is the origin, or has noticed the crash of the origin and of every server between the two.
pub fn stands_in(size: usize, noticed: ServerSet, server: usize, origin: usize) -> bool
    ensures { result ≡ stands_in size (has noticed.bits) server origin }
{
    (0..distance(size, origin, server)).all(|steps| noticed.contains(after(size, origin, steps)))
}

// Whether every server whose crash this one has not noticed is itself or in the mask.
pub fn covers(size: usize, noticed: ServerSet, server: usize, mask: ServerSet) -> bool
    ensures { result ≡ covers size (has noticed.bits) server mask.bits }
{
    (0..size).all(|other| noticed.contains(other) || other == server || mask.contains(other))
}

#[cfg(test)]
mod tests {
    use super::*;

    // Of three servers, the next of 2 is 0, and 1 once the crash of 0 is noticed.
    #[test]
    fn the_next_of_the_last_is_the_first(rt: HostRuntime) {
        assert_eq!(rt; next_of(3, ServerSet::empty(), 2), 0);
        assert_eq!(rt; next_of(3, ServerSet::only(0), 2), 1);
    }

    // Of four servers, 3 that has noticed the crash of 2 stands in for 2, and not for 1.
    #[test]
    fn a_stand_in_has_noticed_all_between(rt: HostRuntime) {
        assert!(rt; stands_in(4, ServerSet::only(2), 3, 2));
        assert!(rt; !stands_in(4, ServerSet::only(2), 3, 1));
    }

    // Of three servers, 0 and 2 cover for 1, and 0 alone only once 1 has noticed the crash of 2.
    #[test]
    fn a_mask_covers_all_that_are_not_noticed(rt: HostRuntime) {
        assert!(rt; covers(3, ServerSet::empty(), 1, ServerSet::only(0).with(2)));
        assert!(rt; !covers(3, ServerSet::empty(), 1, ServerSet::only(0)));
        assert!(rt; covers(3, ServerSet::only(2), 1, ServerSet::only(0)));
    }
}

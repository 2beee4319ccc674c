// Hours run by local weekday in zone P: a week of runs is booked on the library, with a restart in the middle, and printed. Every number is computed.
#![tactic(auto)]

mod bookings;
mod numbers;
mod show;
mod text;
mod week;
mod zone_p;

fn main() {
    match zone_p::rule() {
        Ok(rule) => show::show(week::booked([rule])),
        Err(why) => show::show_refusal(why),
    }
}

// From the bytes of logs to the pencil account: after any number of bookings of one tally, the record that stands in its file is the account's after the runs of all logs.
#![tactic(auto)]

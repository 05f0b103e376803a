// No code: the requests on an image as one type, and what holds of every one of them.
#![tactic(auto)]
